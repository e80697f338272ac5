//! Marks of faults.

ghost use Rattle.std.specs.Prelude.{◌≡◌, ◌++◌, IfOk, None, OnOk, []};
ghost use Rattle.std.specs.Option.{option_to_list};
ghost use Rattle.t1_picture.specs.Private.MarkViews.{IsMarked};

use crate::subpath::is_same;
use std::alloc::{AllocError, Global};
use t1_rules::Point;

/// The radius of a mark; its number is as far to the right of its middle, and as far above.
pub(crate) const MARK: i64 = 9;

/// A mark at a point: the numbers of faults that follow one another and are there.
#[derive(Clone, Copy, Debug, PartialEq, Eq)]
pub(crate) struct FaultMark {
    pub(crate) point: Point,
    pub(crate) first: u64,
    pub(crate) last: u64,
}

/// The marks so far: to the last one the next fault may still be added.
#[derive(Drop)]
pub(crate) struct Marks {
    done: Vec<FaultMark>,
    last: Option<FaultMark>,
}

impl Marks {
    /// None.
    pub(crate) fn new(alloc: Global) -> Marks
        ensures done { result.done.items ≡ [] }
        ensures last { result.last ≡ None }
    {
        Marks {
            done: Vec::new(alloc),
            last: None,
        }
    }

    /// Marks a fault, by its number: where the one before it is at the same point, by the mark of that.
    pub(crate) fn mark(&mut self, point: Point, number: u64) -> Result<(), AllocError>
        ensures { OnOk result (IsMarked self.old self.new point number) }
    {
        if let Some(mark) = self.last {
            if is_same(mark.point, point) {
                self.last = Some(FaultMark {
                    last: number,
                    ..mark
                });
                return Ok(());
            }
            self.done.push(mark)?;
        }
        self.last = Some(FaultMark {
            point,
            first: number,
            last: number,
        });
        Ok(())
    }

    /// All of them.
    pub(crate) fn finish(self) -> Result<Vec<FaultMark>, AllocError>
        ensures { IfOk result (λ marks. marks.items ≡ self.done.items ++ option_to_list self.last) }
    {
        let mut marks = self.done;
        if let Some(mark) = self.last {
            marks.push(mark)?;
        }
        Ok(marks)
    }
}
