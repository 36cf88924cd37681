// A host's program. It works with the three states as types, and then with one sitting in whichever
// state.
#![tactic(auto)]

ghost use Rattle.std.specs.Prelude.{◌≡◌};
ghost use Rattle.sitting.specs.Today.{state_of};

use register::Catalogue;
use rights::{Answer, Command, RegisterFault, State};
use sitting::{SettingUp, Sitting};
use std::io;

// Prints what came of a call.
fn report(rt: &impl Print, what: &str, done: Result<(), RegisterFault>) -> io::Result<()> {
    match done {
        Ok(_) => println!(rt; "{what}: ok"),
        Err(fault) => {
            let number = fault.number();
            let layer = fault.layer();
            println!(rt; "{what}: refused {number} by layer {layer}")
        }
    }
}

// Each state is a type: a call that it does not take is no call of that type.
fn by_states(rt: &impl Print) -> io::Result<()> {
    let mut catalogue = Catalogue::new();
    let mut sitting = match SettingUp::begin().open(&catalogue) {
        Ok(_) => return println!(rt; "opened with nobody"),
        Err((back, fault)) => {
            report(rt, "opening with nobody", Err(fault))?;
            back
        }
    };
    report(rt, "person 1", sitting.user(&mut catalogue, 1, 1))?;
    report(rt, "group 10", sitting.group(&mut catalogue, 10))?;
    let mut open = match sitting.open(&catalogue) {
        Ok(open) => open,
        Err((_back, fault)) => return report(rt, "opening", Err(fault)),
    };
    report(rt, "finishes", open.base(&mut catalogue, 1, 5))?;
    report(rt, "results", open.view(&mut catalogue, 1, 6, &[5]))?;
    report(rt, "results again", open.view(&mut catalogue, 1, 6, &[5]))?;
    report(rt, "a table of a group", open.base(&mut catalogue, 10, 7))?;
    let closed = open.close();
    let carried = closed.carried();
    println!(rt; "carried out: {carried}")
}

// Hands a command to an open sitting, and to no other.
fn hand_in(sitting: Sitting, catalogue: &mut Catalogue, command: Command) -> (Sitting, Answer)
    requires { state_of sitting ≡ State.Open }
{
    sitting.take(catalogue, command)
}

// Makes a table where the sitting is open; in any other state it is left alone.
fn make_table(sitting: Sitting, catalogue: &mut Catalogue) -> (Sitting, bool) {
    match sitting.state() {
        State::Open => {
            let (sitting, answer) = hand_in(sitting, catalogue, Command::Base { i: 1, t: 5 });
            (sitting, answer == Answer::Done)
        }
        _ => (sitting, false),
    }
}

// Closes the sitting where it is open. Not one function with `make_table`: each shows another slip
// of a host, a word before the opening and one after the closing, and each has its edit.
fn end(sitting: Sitting, catalogue: &mut Catalogue) -> (Sitting, bool) {
    if sitting.state() == State::Open {
        let (sitting, answer) = hand_in(sitting, catalogue, Command::Close);
        return (sitting, answer == Answer::Done);
    }
    (sitting, false)
}

// One sitting in whichever state: the proof has to show that it is open before a word of an open
// sitting.
fn by_commands(rt: &impl Print) -> io::Result<()> {
    let mut catalogue = Catalogue::new();
    let (sitting, early) = make_table(Sitting::begin(), &mut catalogue);
    let (sitting, _) = sitting.take(&mut catalogue, Command::User { n: 1, c: 1 });
    let (sitting, _) = sitting.take(&mut catalogue, Command::Open);
    let (sitting, made) = make_table(sitting, &mut catalogue);
    let (sitting, ended) = end(sitting, &mut catalogue);
    let (_, late) = make_table(sitting, &mut catalogue);
    println!(rt; "before opening {early}, open {made}, closed {ended}, after closing {late}")
}

fn main(rt: HostRuntime) -> io::Result<()> {
    by_states(&rt)?;
    by_commands(&rt)
}
