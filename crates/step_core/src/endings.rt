//! The end of a machine: each region that is out goes back to the callback, or is kept.

ghost use Rattle.std.specs.Prelude.{◌≡◌, ◌≤◌, ◌+◌, length};
ghost use Rattle.pool_types.specs.Limits.{most_regions};
ghost use Rattle.step_core.specs.Endings.{Destroys, Passes, PassesAll, EndsBy, no_regions, all_kept, count_of};

use crate::machine::PlainMachine;
use pool_types::{Destroyed, Raw};
use regions::Office;

/// Passes the region that has the lowest number to the callback, if one is out.
fn passes_first<R: Raw>(office: &mut Office<R>, destroyed: &mut Destroyed)
    requires { count_of destroyed.old + length office.old.records ≤ most_regions }
    ensures { Passes R.out R.faults R.passed office.old.records office.old destroyed.old office.new destroyed.new }
{
    let Some(one) = office.regions().first().copied() else {
        return;
    };
    if office.give(one.first) {
        destroyed.returned.push(one);
    } else {
        destroyed.refused.push(one);
    }
}

/// Passes each region that is out to the callback, by number.
fn passes_all<R: Raw>(office: Office<R>) -> (Destroyed, R)
    ensures { PassesAll R.out R.faults R.passed office.records no_regions office.raw result.0 result.1 }
{
    let mut office = office;
    let mut destroyed = Destroyed::default();
    let regions = office.regions().len();
    for _ in 0..regions {
        passes_first(&mut office, &mut destroyed);
    }
    (destroyed, office.end())
}

/// Keeps each region that is out.
fn keeps_all<R: Raw>(office: Office<R>) -> (Destroyed, R)
    ensures destroyed { result.0 ≡ all_kept office.records }
    ensures raw { result.1 ≡ office.raw }
{
    let mut destroyed = Destroyed::default();
    for one in office.regions() {
        destroyed.kept.push(*one);
    }
    (destroyed, office.end())
}

/// Ends an office. Each region that is out is passed to the callback once, by number; where there is no callback for
/// giving back, each is kept.
pub fn ends<R: Raw>(office: Office<R>, frees: bool) -> (Destroyed, R)
    ensures { EndsBy R.out R.faults R.passed frees office result.0 result.1 }
{
    if frees {
        passes_all(office)
    } else {
        keeps_all(office)
    }
}

impl<R: Raw> PlainMachine<R> {
    /// Ends the pool. Each region that is out is passed to the callback once, by number; where the policy has no
    /// callback for giving back, none is, and each is kept. The machine comes back exactly where a seat is in a call; a
    /// reset that is not done keeps nothing back.
    pub fn destroy(self) -> Result<(Destroyed, R), PlainMachine<R>>
        ensures { Destroys R.out R.faults R.passed self result }
    {
        match self.held_back() {
            Some(_) => Err(self),
            None => {
                let PlainMachine { depot, .. } = self;
                let frees = depot.key().frees;
                Ok(ends(depot.office(), frees))
            }
        }
    }
}
