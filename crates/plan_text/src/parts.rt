ghost use Rattle.std.specs.Prelude.{◌≡◌, OnOk};
ghost use Rattle.plan_text.specs.Drafts as drafts;

use crate::draft::Draft;
use crate::makers::{alias, star};
use crate::pile::Pile;
use cn_base::{Boxed, OutOfMemory};
use plan_grammar::{Choice, Part};
use plan_messages::{RenameEntry, SortOrder};
use std::alloc::Global;

/// Keeps the number of what was chosen.
pub fn choose(choices: &mut Pile<i32>, choice: Choice) -> Result<(), OutOfMemory>
    ensures { OnOk result (choices.new ≡ drafts.chosen choice choices.old) }
{
    match choice {
        Choice::NoMode => choices.put(0),
        Choice::NotAll => choices.put(0),
        Choice::Append => choices.put(1),
        Choice::Intersect => choices.put(1),
        Choice::All => choices.put(1),
        Choice::Ascending => choices.put(1),
        Choice::NullsFirst => choices.put(1),
        Choice::InnerJoin => choices.put(1),
        Choice::Overwrite => choices.put(2),
        Choice::Union => choices.put(2),
        Choice::Descending => choices.put(2),
        Choice::NullsLast => choices.put(2),
        Choice::FullJoin => choices.put(2),
        Choice::ErrorIfExists => choices.put(3),
        Choice::Except => choices.put(3),
        Choice::LeftJoin => choices.put(3),
        Choice::Ignore => choices.put(4),
        Choice::RightJoin => choices.put(4),
        Choice::AntiJoin => choices.put(5),
        Choice::SemiJoin => choices.put(6),
        Choice::CrossJoin => choices.put(7),
        Choice::NullsByDirection => {
            let direction = choices.take(1);
            choices.put(direction)?;
            choices.put(direction)
        }
    }
}

impl Draft {
    fn assign(&mut self, alloc: Global) -> Result<(), OutOfMemory>
        ensures { OnOk result (self.new ≡ drafts.with_assignment self.old) }
    {
        let name = self.take_name(alloc);
        let named = alias(alloc, name, self.expressions.take(star()))?;
        self.aliases.push(named)
    }

    fn order(&mut self, alloc: Global) -> Result<(), OutOfMemory>
        ensures { OnOk result (self.new ≡ drafts.with_order self.old) }
    {
        let null_ordering = self.choices.take(1);
        let direction = self.choices.take(1);
        let child = Boxed::new(alloc, self.expressions.take(star()))?;
        self.orders.push(SortOrder {
            child,
            direction,
            null_ordering,
        })
    }

    fn rename(&mut self, alloc: Global) -> Result<(), OutOfMemory>
        ensures { OnOk result (self.new ≡ drafts.with_renaming self.old) }
    {
        let value = self.take_name(alloc);
        let key = self.take_name(alloc);
        self.renames.push(RenameEntry { key, value })
    }

    /// Does what makes parts of steps.
    pub fn do_part(&mut self, alloc: Global, part: Part) -> Result<(), OutOfMemory>
        ensures { OnOk result (self.new ≡ drafts.part_done part self.old) }
    {
        match part {
            Part::Assign => self.assign(alloc),
            Part::Order => self.order(alloc),
            Part::Renaming => self.rename(alloc),
            Part::GroupKeys => {
                self.keys = self.expressions.take_all(alloc);
                Ok(())
            }
        }
    }
}
