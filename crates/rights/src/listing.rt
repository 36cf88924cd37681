// The tables that a command's view is to name.
ghost use Rattle.std.specs.Prelude.{◌≡◌, ◌-◌, ◌<◌, ◌++◌, length, replicate, MatchResult};
ghost use Rattle.rights.specs.Read.{tables_in};

use crate::commands::Named;

impl Named {
    /// The tables named, without the unused places of the list.
    pub fn listed(&self) -> &[u16]
        ensures { result.now ≡ tables_in self.now }
    {
        &self.tables[0..self.count]
    }
}

/// What a list of tables is refused for that is longer than a view's.
#[derive(Clone, Copy, PartialEq, Eq, Debug)]
pub struct TooManyTables;

// The places of the list that name no table hold 0.
impl TryFrom<&[u16]> for Named {
    type Error = TooManyTables;

    ghost try_from_gives = { λ list r. MatchResult r
        (λ d. (tables_in d ≡ list.now)
        × (d.tables ≡ list.now ++ replicate (14 - length list.now) 0)
        × (d.count ≡ length list.now))
        (λ _. 14 < length list.now) };

    fn try_from(list: &[u16]) -> Result<Named, TooManyTables> {
        if list.len() > 14 {
            return Err(TooManyTables);
        }
        let mut tables = [0; 14];
        tables[..list.len()].copy_from_slice(list);
        Ok(Named {
            count: list.len(),
            tables,
        })
    }
}
