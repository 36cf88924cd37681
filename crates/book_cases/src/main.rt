// The same long list of puts and takes on a plain book and a cell book, compared after each.
#![tactic(auto)]

mod steps;
mod trial;

use book::{Cell, Cells, Plain};
use rights::{BookFault, Entry, Privilege, Right, Sign, Strength};
use std::io;
use steps::run;
use trial::first_with;

// The number that a refusal is told by, 0 where nothing is refused.
fn number(answer: Result<(), BookFault>) -> u8 {
    answer.err().map_or(0, |fault| fault.number())
}

fn main(rt: HostRuntime) -> io::Result<()> {
    let blank = Entry {
        subject: 0,
        table: 0,
        grantor: 0,
        right: Right::Access(Privilege::Select, Sign::Plus, Strength::Weak),
    };
    // the lists that the books borrow, as a host lends them
    let mut records = [blank; 24];
    let mut cells = [Cell {
        subject: 0,
        table: 0,
        grantor: 0,
        rights: 0,
        earlier: 0,
    }; 24];
    for wanted in [20, 25, 0] {
        let one = number(Plain::check(&records, wanted));
        let two = number(Cells::check(&cells, wanted));
        println!(rt; "ceiling {wanted}: {one} {two}")?;
    }
    let mut plain = Plain::new(&mut records, 20);
    let mut packed = Cells::new(&mut cells, 20);
    let tally = run(&mut plain, &mut packed, 4000);
    println!(rt; "agreed {}, done {}", tally.agreed, tally.done)?;
    println!(rt;
        "refused: bad number {}, taken {}, absent {}, full {}",
        tally.bad, tally.taken, tally.absent, tally.full
    )?;
    let probe = Entry {
        subject: 1,
        table: 0,
        grantor: 1,
        right: Right::Access(Privilege::Select, Sign::Plus, Strength::Weak),
    };
    let one = first_with(&mut plain, probe).is_some();
    let two = first_with(&mut packed, probe).is_some();
    println!(rt; "first {one} {two}")
}
