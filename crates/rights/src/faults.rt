// The refusals of each layer. A fault of a book or a roll stands whole inside the register's, and that
// inside the sheet's; what is refused of a list that is lent is a refusal of the book's or the roll's own.
ghost use Rattle.std.specs.Prelude.{◌≡◌};
ghost use Rattle.rights.specs.declared.faults.RegisterFault.TheVariants.{Book, Roll};
ghost use Rattle.rights.specs.declared.faults.SheetFault.TheVariants.{Register};
ghost use Rattle.rights.specs.Faults.{book_fault_of, roll_fault_of, book_number, roll_number, register_number, register_layer, number as sheet_number, layer as sheet_layer};

/// What a list that is lent to a book or a roll is refused for, before anything is made over it.
#[derive(Clone, Copy, PartialEq, Eq, Debug)]
pub enum RoomFault {
    ShortList,
    BadNumber,
}

/// What a book refuses.
#[derive(Clone, Copy, PartialEq, Eq, Debug)]
pub enum BookFault {
    ShortList,
    BadNumber,
    Taken,
    Absent,
    Full,
}

/// What a roll refuses.
#[derive(Clone, Copy, PartialEq, Eq, Debug)]
pub enum RollFault {
    ShortList,
    BadNumber,
    Taken,
    Absent,
    Loop,
    Full,
}

/// What the register refuses, with the faults of its book and its roll.
#[derive(Clone, Copy, PartialEq, Eq, Debug)]
pub enum RegisterFault {
    ShortSlate,
    ShortList,
    BadNumber,
    Stranger,
    NoTable,
    NotTheirs,
    Taken,
    NoMandate,
    ViewDenied,
    Clash,
    BuiltUpon,
    MakeUp,
    Nobody,
    Book(BookFault),
    Roll(RollFault),
}

/// What a sheet's line is refused for, with the faults of the register.
#[derive(Clone, Copy, PartialEq, Eq, Debug)]
pub enum SheetFault {
    Unreadable,
    OutOfTurn,
    Register(RegisterFault),
}

impl BookFault {
    /// The refusal's number.
    pub fn number(&self) -> u8
        ensures { result ≡ book_number self.now }
    {
        match self {
            BookFault::ShortList => 2,
            BookFault::BadNumber => 3,
            BookFault::Taken => 7,
            BookFault::Absent => 8,
            BookFault::Full => 12,
        }
    }
}

// Not one method with a book's: each is the table of its own refusals.
impl RollFault {
    /// The refusal's number.
    pub fn number(&self) -> u8
        ensures { result ≡ roll_number self.now }
    {
        match self {
            RollFault::ShortList => 2,
            RollFault::BadNumber => 3,
            RollFault::Taken => 7,
            RollFault::Absent => 8,
            RollFault::Loop => 11,
            RollFault::Full => 12,
        }
    }
}

impl RegisterFault {
    /// The refusal's number.
    pub fn number(&self) -> u8
        ensures { result ≡ register_number self.now }
    {
        match self {
            RegisterFault::ShortSlate => 1,
            RegisterFault::ShortList => 2,
            RegisterFault::BadNumber => 3,
            RegisterFault::Stranger => 4,
            RegisterFault::NoTable => 5,
            RegisterFault::NotTheirs => 6,
            RegisterFault::Taken => 7,
            RegisterFault::NoMandate => 9,
            RegisterFault::ViewDenied => 10,
            RegisterFault::Clash => 13,
            RegisterFault::BuiltUpon => 14,
            RegisterFault::MakeUp => 15,
            RegisterFault::Nobody => 16,
            RegisterFault::Book(fault) => fault.number(),
            RegisterFault::Roll(fault) => fault.number(),
        }
    }

    /// The layer that refused: 2 register, 3 book, 4 roll.
    pub fn layer(&self) -> u8
        ensures { result ≡ register_layer self.now }
    {
        match self {
            RegisterFault::Book(_) => 3,
            RegisterFault::Roll(_) => 4,
            _ => 2,
        }
    }
}

impl SheetFault {
    /// The refusal's number, 1 to 18.
    pub fn number(&self) -> u8
        ensures { result ≡ sheet_number self.now }
    {
        match self {
            SheetFault::Unreadable => 17,
            SheetFault::OutOfTurn => 18,
            SheetFault::Register(fault) => fault.number(),
        }
    }

    /// The layer that refused: 1 sheet, 2 register, 3 book, 4 roll.
    pub fn layer(&self) -> u8
        ensures { result ≡ sheet_layer self.now }
    {
        match self {
            SheetFault::Unreadable | SheetFault::OutOfTurn => 1,
            SheetFault::Register(fault) => fault.layer(),
        }
    }
}

// A fault passes up by `?`. These impls are written out for `from_gives`, which a clause names and
// which no derive gives; a book and a roll each have their own words for a list that is refused.
impl From<RoomFault> for BookFault {
    ghost from_gives = { λ f r. r ≡ book_fault_of f };

    fn from(fault: RoomFault) -> BookFault {
        match fault {
            RoomFault::ShortList => BookFault::ShortList,
            RoomFault::BadNumber => BookFault::BadNumber,
        }
    }
}

impl From<RoomFault> for RollFault {
    ghost from_gives = { λ f r. r ≡ roll_fault_of f };

    fn from(fault: RoomFault) -> RollFault {
        match fault {
            RoomFault::ShortList => RollFault::ShortList,
            RoomFault::BadNumber => RollFault::BadNumber,
        }
    }
}

impl From<BookFault> for RegisterFault {
    ghost from_gives = { λ f r. r ≡ Book f };

    fn from(fault: BookFault) -> RegisterFault {
        RegisterFault::Book(fault)
    }
}

impl From<RollFault> for RegisterFault {
    ghost from_gives = { λ f r. r ≡ Roll f };

    fn from(fault: RollFault) -> RegisterFault {
        RegisterFault::Roll(fault)
    }
}

impl From<RegisterFault> for SheetFault {
    ghost from_gives = { λ f r. r ≡ Register f };

    fn from(fault: RegisterFault) -> SheetFault {
        SheetFault::Register(fault)
    }
}
