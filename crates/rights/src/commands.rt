// The commands of a sitting with their numbers as they came, and the answers.
ghost use Rattle.std.specs.Prelude.{◌≡◌, ◌≤◌};
ghost use Rattle.rights.specs.Faults.{answer_of};
ghost use Rattle.rights.specs.Numbers.{ground_number};

use crate::faults::SheetFault;

/// The tables that a view names, as they were written: the first `count` of the list.
// An array with a count: a command is copied, and is read without a heap.
#[derive(Clone, Copy)]
pub struct Named {
    pub count: usize,
    pub tables: [u16; 14],
    ghost few: { count ≤ 14 },
}

/// A command, with its numbers as they came, in range or not.
#[derive(Clone, Copy)]
pub enum Command {
    User {
        n: u16,
        c: u16,
    },
    Group {
        n: u16,
    },
    Open,
    Close,
    Admit {
        i: u16,
        m: u16,
        g: u16,
    },
    Remove {
        i: u16,
        m: u16,
        g: u16,
    },
    Base {
        i: u16,
        t: u16,
    },
    View {
        i: u16,
        t: u16,
        d: Named,
    },
    Drop {
        i: u16,
        t: u16,
    },
    Give {
        i: u16,
        s: u16,
        p: u16,
        sign: u16,
        t: u16,
        strength: u16,
    },
    Ungive {
        i: u16,
        s: u16,
        p: u16,
        sign: u16,
        t: u16,
        strength: u16,
    },
    Lend {
        i: u16,
        s: u16,
        p: u16,
        t: u16,
        kind: u16,
        rank: u16,
    },
    Unlend {
        i: u16,
        s: u16,
        p: u16,
        t: u16,
        kind: u16,
        rank: u16,
    },
    May {
        u: u16,
        p: u16,
        t: u16,
    },
}

/// Why a question was answered so: 0 no rule gives it, 1 a strong entry, 2 weak entries, 3 the
/// tables that the view names.
#[derive(Clone, Copy, PartialEq, Eq, Debug)]
pub enum Ground {
    Nothing,
    Strong,
    Weak,
    Named,
}

// The number that a ground is written with; by hand for `from_gives`, which no derive gives.
impl From<Ground> for u32 {
    ghost from_gives = { λ g r. r ≡ ground_number g };

    fn from(ground: Ground) -> u32 {
        match ground {
            Ground::Nothing => 0,
            Ground::Strong => 1,
            Ground::Weak => 2,
            Ground::Named => 3,
        }
    }
}

/// What a line is answered by.
#[derive(Clone, Copy, PartialEq, Eq, Debug)]
pub enum Answer {
    Done,
    Struck(u32),
    Yes(Ground),
    No(Ground),
    Refused(SheetFault),
}

// What comes of a word that is carried out or refused; by hand for `from_gives`, as for a ground.
impl From<Result<(), SheetFault>> for Answer {
    ghost from_gives = { λ done a. a ≡ answer_of done };

    fn from(done: Result<(), SheetFault>) -> Answer {
        done.map_or_else(Answer::Refused, |_| Answer::Done)
    }
}

/// The states of a sitting.
#[derive(Clone, Copy, PartialEq, Eq)]
pub enum State {
    SettingUp,
    Open,
    Closed,
}
