// A sitting in whichever state it is, and the call that carries out one command. The catalogue stands
// beside a sitting and a command in each signature, since it is lent at each call.
ghost use Rattle.std.specs.Prelude.{◌≡◌, ◌≢◌};
ghost use Rattle.rights.specs.Faults.{answer_of};
ghost use Rattle.sitting.specs.Counts.{Counted};
ghost use Rattle.sitting.specs.States.{setting_up_carried, open_carried};
ghost use Rattle.sitting.specs.Today.{state_of, carried_in, history_of, untaken, Answered, Tallied};

use crate::states::{Closed, Open, SettingUp};
use register::Catalogue;
use rights::{Answer, Command, SheetFault, State};

/// A sitting in whichever state it is.
#[derive(Drop)]
pub enum Sitting {
    SettingUp(SettingUp),
    Open(Open),
    Closed(Closed),
}

impl Sitting {
    /// A sitting that has carried out nothing yet.
    pub fn begin() -> Sitting
        ensures state { state_of result ≡ State.SettingUp }
        ensures count { carried_in result ≡ 0 }
    {
        Sitting::SettingUp(SettingUp::begin())
    }

    /// The state that it is in.
    pub fn state(&self) -> State
        ensures { result ≡ state_of self.now }
    {
        match self {
            Sitting::SettingUp(_) => State::SettingUp,
            Sitting::Open(_) => State::Open,
            Sitting::Closed(_) => State::Closed,
        }
    }

    /// Carries out or refuses one command, and gives the sitting back beside the answer.
    pub fn take(self, catalogue: &mut Catalogue, command: Command) -> (Sitting, Answer)
        ensures answer { Answered (state_of self) (history_of catalogue.old) command
            result.1 (state_of result.0) (history_of catalogue.new) }
        ensures count { Tallied result.1 (carried_in self) (carried_in result.0) }
    {
        match self {
            Sitting::SettingUp(sitting) => prepare(sitting, catalogue, command),
            Sitting::Open(sitting) => work(sitting, catalogue, command),
            Sitting::Closed(sitting) => (
                Sitting::Closed(sitting),
                Answer::Refused(not_taken(&command)),
            ),
        }
    }
}

// What a state refuses a word for that is none of its own: it is out of turn, or does not run
// today.
fn not_taken(command: &Command) -> SheetFault
    ensures { result ≡ untaken command.now }
{
    match command {
        Command::User { .. }
        | Command::Group { .. }
        | Command::Open
        | Command::Close
        | Command::Base { .. }
        | Command::View { .. } => SheetFault::OutOfTurn,
        _ => SheetFault::Unreadable,
    }
}

// A command to a sitting that is being set up.
fn prepare(mut sitting: SettingUp, catalogue: &mut Catalogue, command: Command) -> (Sitting, Answer)
    ensures answer { Answered State.SettingUp (history_of catalogue.old) command
        result.1 (state_of result.0) (history_of catalogue.new) }
    ensures count { Tallied result.1 (setting_up_carried sitting) (carried_in result.0) }
{
    match command {
        Command::Open => match sitting.open(catalogue) {
            Ok(open) => (Sitting::Open(open), Answer::Done),
            Err((back, fault)) => (
                Sitting::SettingUp(back),
                Answer::Refused(SheetFault::from(fault)),
            ),
        },
        word => {
            let done = enrol(&mut sitting, catalogue, word);
            (Sitting::SettingUp(sitting), Answer::from(done))
        }
    }
}

// A command that leaves the sitting in its setting up. The register's fault passes up whole.
fn enrol(
    sitting: &mut SettingUp,
    catalogue: &mut Catalogue,
    command: Command,
) -> Result<(), SheetFault>
    requires { command ≢ Command.Open }
    ensures answer { Answered State.SettingUp (history_of catalogue.old) command
        (answer_of result) State.SettingUp (history_of catalogue.new) }
    ensures count { Counted result
        (setting_up_carried sitting.old)
        (setting_up_carried sitting.new) }
{
    match command {
        Command::User { n, c } => Ok(sitting.user(catalogue, n, c)?),
        Command::Group { n } => Ok(sitting.group(catalogue, n)?),
        word => Err(not_taken(&word)),
    }
}

// A command to an open sitting. Not one function with `prepare`: the states are two types.
fn work(mut sitting: Open, catalogue: &mut Catalogue, command: Command) -> (Sitting, Answer)
    ensures answer { Answered State.Open (history_of catalogue.old) command
        result.1 (state_of result.0) (history_of catalogue.new) }
    ensures count { Tallied result.1 (open_carried sitting) (carried_in result.0) }
{
    match command {
        Command::Close => (Sitting::Closed(sitting.close()), Answer::Done),
        word => {
            let done = make(&mut sitting, catalogue, word);
            (Sitting::Open(sitting), Answer::from(done))
        }
    }
}

// A command that leaves the sitting open. The register's fault passes up whole.
// Not one function with `enrol`: the states are two types, and each has words of its own.
fn make(sitting: &mut Open, catalogue: &mut Catalogue, command: Command) -> Result<(), SheetFault>
    requires { command ≢ Command.Close }
    ensures answer { Answered State.Open (history_of catalogue.old) command
        (answer_of result) State.Open (history_of catalogue.new) }
    ensures count { Counted result (open_carried sitting.old) (open_carried sitting.new) }
{
    match command {
        Command::Base { i, t } => Ok(sitting.base(catalogue, i, t)?),
        Command::View { i, t, d } => Ok(sitting.view(catalogue, i, t, d.listed())?),
        word => Err(not_taken(&word)),
    }
}
