//! What became of the regions of a pool that was destroyed. This project's own.
ghost use Rattle.std.specs.Prelude.{◌≡◌, OnOk};
ghost use Rattle.run_report.specs.Left.{has_number, fate_of, regions_noted, destroyed_noted, left_noted};

use crate::book::Book;
use pool_types::{Destroyed, RegionRec};
use report_text::{Fate, ReportEntry};
use std::alloc::AllocError;

/// Whether the region of this number is one of these.
fn has_number(number: u32, records: &[RegionRec]) -> bool
    ensures { result ≡ has_number number records.now }
{
    for one in records {
        if one.number == number {
            return true;
        }
    }
    false
}

/// What became of a region.
fn fate_of(ended: &Destroyed, number: u32) -> Fate
    ensures { result ≡ fate_of ended.now number }
{
    if has_number(number, ended.kept.as_slice()) {
        Fate::Kept
    } else if has_number(number, ended.refused.as_slice()) {
        Fate::Refused
    } else {
        Fate::Returned
    }
}

impl Book {
    /// Writes what became of each of these regions.
    fn note_regions(
        &mut self,
        pool: u16,
        ended: &Destroyed,
        records: &[RegionRec],
    ) -> Result<(), AllocError>
        ensures { OnOk result (self.new ≡ regions_noted self.old pool ended.now records.now) }
    {
        for one in records {
            self.note(ReportEntry::RegionLeft {
                pool,
                region: *one,
                fate: fate_of(ended, one.number),
            })?;
        }
        Ok(())
    }

    /// Writes how many regions had each fate.
    fn note_destroyed(
        &mut self,
        line: u32,
        ended: &Destroyed,
        objects: u64,
    ) -> Result<(), AllocError>
        ensures { OnOk result (self.new ≡ destroyed_noted self.old line ended.now objects) }
    {
        self.note(ReportEntry::Destroyed {
            line,
            returned: ended.returned.len() as u64,
            refused: ended.refused.len() as u64,
            kept: ended.kept.len() as u64,
            objects,
        })
    }

    /// Writes that a pool was destroyed that had these regions, by number, and so many objects, and what became of each
    /// region.
    #[tactic(auto, unfolding(crate::specs::Left::left_noted))]
    pub fn note_left(
        &mut self,
        line: u32,
        pool: u16,
        ended: &Destroyed,
        objects: u64,
        records: &[RegionRec],
    ) -> Result<(), AllocError>
        ensures { OnOk result (self.new ≡ left_noted self.old line pool ended.now objects records.now) }
    {
        self.note_destroyed(line, ended, objects)?;
        self.note_regions(pool, ended, records)
    }
}
