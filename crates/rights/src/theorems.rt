// Theorems about the rules: what each function is for stands in its contract alone.
ghost use Rattle.std.specs.Prelude.{◌≡◌, length};
ghost use Rattle.rights.specs.Basics.{BasicLaws};
ghost use Rattle.rights.specs.Bits.{rows};
ghost use Rattle.rights.specs.Contrasts.{Shows, delegates, oneself, EachOther, Itself, every_named, one_entry};
ghost use Rattle.rights.specs.Laws.{AccessLaws};
ghost use Rattle.rights.specs.Mandates.{MandateLaws, RunLaws};
ghost use Rattle.rights.specs.Scenes.{ExamplesAnswered, examples};
ghost use Rattle.rights.specs.Worked.{Worked, WorkedNumbers, worked_commands as commands};

/// The laws of within, of holding, of bit numbers and of the order of entries; the result is how
/// many rights there are.
pub fn basic_laws() -> u8
    ensures laws { BasicLaws }
    ensures many { result ≡ length rows }
{
    let of_access: u8 = 16;
    let of_administration: u8 = 16;
    of_access + of_administration
}

/// Where tables have levels every question has exactly one answer, and it reads only the tables and
/// entries at the table asked about and beneath it; what stays as more is granted; clashes and
/// levels. And in each small state where a wrong reading of the rules misleads, the answer is the
/// right one. The result is how many small states there are.
pub fn access_laws() -> u8
    ensures laws { AccessLaws }
    ensures answered { ExamplesAnswered }
    ensures many { result ≡ length examples }
{
    let of_paths: u8 = 4;
    let of_tables: u8 = 4;
    of_paths + of_tables
}

/// The laws of cover, chains and runs, and short examples that come out otherwise under rules that
/// could be mistaken for these: delegates who lent to each other or to themselves, entries that
/// support each other or themselves, a view of which one table is covered, kind and rank from two
/// entries. The result is how many examples they are.
pub fn mandate_laws() -> u8
    ensures laws { MandateLaws }
    ensures runs { RunLaws }
    ensures delegates { Shows delegates }
    ensures oneself { Shows oneself }
    ensures circle { EachOther }
    ensures alone { Itself }
    ensures covered { Shows every_named }
    ensures ranked { Shows one_entry }
    ensures many { result ≡ 6 }
{
    let runs: u8 = 4;
    let facts: u8 = 2;
    runs + facts
}

/// The commands of the worked example have the answers that are written down, and no others; the
/// result is how many commands they are.
pub fn worked_sheet_stands() -> u8
    ensures stands { Worked }
    ensures numbers { WorkedNumbers }
    ensures many { result ≡ length commands }
{
    30
}
