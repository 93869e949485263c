ghost use Rattle.std.specs.Prelude.{◌≡◌, IfOk, OnOk};
ghost use Rattle.plan_text.specs.Drafts as drafts;
ghost use Rattle.plan_text.specs.Writable.{CanStep};

use crate::draft::{Draft, Write};
use crate::makers::{as_integer, no_relation, relation, star};
use crate::names::part_of;
use cn_base::{Boxed, List, OutOfMemory, Text};
use plan_grammar::StepAction;
use plan_messages::{
    Aggregate, Deduplicate, DropColumns, Expr, Filter, Join, Limit, NamedTable, Offset, Project,
    Range, Read, Relation, RelationCommon, RelationMember, RenameMap, SetOperation, Sort,
    SubqueryAlias, ToDf, WithColumns, WithColumnsRenamed,
};
use std::alloc::Global;
use std::mem;

impl Draft {
    /// The relation so far.
    fn take_input(&mut self, alloc: Global) -> Result<Boxed<Relation>, OutOfMemory>
        ensures input { IfOk result (λ r. r ≡ drafts.top_relation self.old) }
        ensures rest { self.new ≡ drafts.without_relation self.old }
    {
        Ok(Boxed::new(alloc, self.relations.take(no_relation()))?)
    }

    fn put_relation(&mut self, member: RelationMember<Relation>) -> Result<(), OutOfMemory>
        ensures { OnOk result (self.new ≡ drafts.with_relation member self.old) }
    {
        self.relations.put(relation(member))
    }

    fn range(&mut self) -> Result<(), OutOfMemory>
        ensures { OnOk result (self.new ≡ drafts.range_done self.old) }
    {
        let step = self.numbers.take(0);
        let end = self.numbers.take(0);
        let start = self.numbers.take(0);
        self.put_relation(RelationMember::Range(Range {
            start: Some(start),
            end,
            step,
            num_partitions: None,
        }))
    }

    fn read(&mut self, alloc: Global) -> Result<(), OutOfMemory>
        ensures { OnOk result (self.new ≡ drafts.read_done self.old) }
    {
        let name = self.take_name(alloc);
        let identifier = part_of(alloc, name)?;
        self.put_relation(RelationMember::Read(Read {
            named_table: Some(NamedTable {
                unparsed_identifier: identifier,
            }),
        }))
    }

    fn filter(&mut self, alloc: Global) -> Result<(), OutOfMemory>
        ensures { OnOk result (self.new ≡ drafts.filter_done self.old) }
    {
        let input = self.take_input(alloc)?;
        let condition = self.expressions.take(star());
        self.put_relation(RelationMember::Filter(Filter { input, condition }))
    }

    fn project(&mut self, alloc: Global) -> Result<(), OutOfMemory>
        ensures { OnOk result (self.new ≡ drafts.project_done self.old) }
    {
        let input = self.take_input(alloc)?;
        let expressions = self.expressions.take_all(alloc);
        self.put_relation(RelationMember::Project(Project { input, expressions }))
    }

    fn with_columns(&mut self, alloc: Global) -> Result<(), OutOfMemory>
        ensures { OnOk result (self.new ≡ drafts.with_columns_done self.old) }
    {
        let input = self.take_input(alloc)?;
        let aliases = mem::replace(&mut self.aliases, List::new(alloc));
        self.put_relation(RelationMember::WithColumns(WithColumns { input, aliases }))
    }

    fn drop_columns(&mut self, alloc: Global) -> Result<(), OutOfMemory>
        ensures { OnOk result (self.new ≡ drafts.drop_done self.old) }
    {
        let input = self.take_input(alloc)?;
        let column_names = self.names.take_all(alloc);
        self.put_relation(RelationMember::DropColumns(DropColumns {
            input,
            columns: List::new(alloc),
            column_names,
        }))
    }

    fn rename_columns(&mut self, alloc: Global) -> Result<(), OutOfMemory>
        ensures { OnOk result (self.new ≡ drafts.rename_done self.old) }
    {
        let renames = mem::replace(&mut self.renames, List::new(alloc));
        let rename_map = RenameMap::of(alloc, renames)?;
        let input = self.take_input(alloc)?;
        self.put_relation(RelationMember::WithColumnsRenamed(WithColumnsRenamed {
            input,
            rename_map,
        }))
    }

    fn name_columns(&mut self, alloc: Global) -> Result<(), OutOfMemory>
        ensures { OnOk result (self.new ≡ drafts.names_done self.old) }
    {
        let input = self.take_input(alloc)?;
        let column_names = self.names.take_all(alloc);
        self.put_relation(RelationMember::ToDf(ToDf {
            input,
            column_names,
        }))
    }

    fn alias_relation(&mut self, alloc: Global) -> Result<(), OutOfMemory>
        ensures { OnOk result (self.new ≡ drafts.alias_done self.old) }
    {
        let input = self.take_input(alloc)?;
        let alias = self.take_name(alloc);
        self.put_relation(RelationMember::SubqueryAlias(SubqueryAlias {
            input,
            alias,
            qualifier: List::new(alloc),
        }))
    }

    fn sort(&mut self, alloc: Global) -> Result<(), OutOfMemory>
        ensures { OnOk result (self.new ≡ drafts.sort_done self.old) }
    {
        let input = self.take_input(alloc)?;
        let order = mem::replace(&mut self.orders, List::new(alloc));
        self.put_relation(RelationMember::Sort(Sort {
            input,
            order,
            is_global: None,
        }))
    }

    fn limit(&mut self, alloc: Global) -> Result<(), OutOfMemory>
        ensures { OnOk result (self.new ≡ drafts.limit_done self.old) }
    {
        let input = self.take_input(alloc)?;
        let number = as_integer(self.numbers.take(0));
        self.put_relation(RelationMember::Limit(Limit { input, number }))
    }

    fn offset(&mut self, alloc: Global) -> Result<(), OutOfMemory>
        ensures { OnOk result (self.new ≡ drafts.offset_done self.old) }
    {
        let input = self.take_input(alloc)?;
        let number = as_integer(self.numbers.take(0));
        self.put_relation(RelationMember::Offset(Offset { input, number }))
    }

    fn aggregate(&mut self, alloc: Global) -> Result<(), OutOfMemory>
        ensures { OnOk result (self.new ≡ drafts.aggregate_done self.old) }
    {
        let input = self.take_input(alloc)?;
        let grouping_expressions = mem::replace(&mut self.keys, List::new(alloc));
        let aggregate_expressions = self.expressions.take_all(alloc);
        self.put_relation(RelationMember::Aggregate(Aggregate {
            input,
            group_type: 1,
            grouping_expressions,
            aggregate_expressions,
        }))
    }

    fn set_operation(&mut self, alloc: Global) -> Result<(), OutOfMemory>
        ensures { OnOk result (self.new ≡ drafts.set_operation_done self.old) }
    {
        let right_input = self.take_input(alloc)?;
        let left_input = self.take_input(alloc)?;
        let all = self.choices.take(0);
        let set_op_type = self.choices.take(2);
        self.put_relation(RelationMember::SetOperation(SetOperation {
            left_input,
            right_input,
            set_op_type,
            is_all: Some(all == 1),
            by_name: None,
            allow_missing_columns: None,
        }))
    }

    fn set_plan_id(&mut self) -> Result<(), OutOfMemory>
        ensures { OnOk result (self.new ≡ drafts.plan_id_done self.old) }
    {
        let number = self.numbers.take(0);
        let Relation { common: _, member } = self.relations.take(no_relation());
        self.relations.put(Relation {
            common: Some(RelationCommon {
                plan_id: Some(number),
            }),
            member,
        })
    }

    fn deduplicate(
        &mut self,
        alloc: Global,
        column_names: List<Text>,
        all: Option<bool>,
    ) -> Result<(), OutOfMemory>
        ensures { OnOk result (self.new ≡ drafts.with_deduplicate column_names all self.old) }
    {
        let input = self.take_input(alloc)?;
        self.put_relation(RelationMember::Deduplicate(Deduplicate {
            input,
            column_names,
            all_columns_as_keys: all,
        }))
    }

    fn join(
        &mut self,
        alloc: Global,
        condition: Option<Expr>,
        using_columns: List<Text>,
    ) -> Result<(), OutOfMemory>
        ensures { OnOk result (self.new ≡ drafts.with_join condition using_columns self.old) }
    {
        let right = self.take_input(alloc)?;
        let left = self.take_input(alloc)?;
        let join_type = self.choices.take(1);
        self.put_relation(RelationMember::Join(Join {
            left,
            right,
            join_condition: condition,
            join_type,
            using_columns,
        }))
    }

    fn write_table(&mut self, alloc: Global, method: i32) -> Result<(), OutOfMemory>
        ensures { OnOk result (self.new ≡ drafts.with_write method self.old) }
    {
        let name = self.take_name(alloc);
        let table = part_of(alloc, name)?;
        let mode = self.choices.take(0);
        self.write = Some(Write {
            table,
            method,
            mode,
        });
        Ok(())
    }

    /// Does what makes relations and writes.
    pub fn do_step(&mut self, alloc: Global, step: StepAction) -> Result<(), OutOfMemory>
        requires { CanStep step self.old }
        ensures { OnOk result (self.new ≡ drafts.step_done step self.old) }
    {
        match step {
            StepAction::Range => self.range(),
            StepAction::Read => self.read(alloc),
            StepAction::Values => self.values(alloc),
            StepAction::Filter => self.filter(alloc),
            StepAction::Project => self.project(alloc),
            StepAction::WithColumns => self.with_columns(alloc),
            StepAction::Drop => self.drop_columns(alloc),
            StepAction::Rename => self.rename_columns(alloc),
            StepAction::ToDf => self.name_columns(alloc),
            StepAction::SubqueryAlias => self.alias_relation(alloc),
            StepAction::Sort => self.sort(alloc),
            StepAction::Limit => self.limit(alloc),
            StepAction::Offset => self.offset(alloc),
            StepAction::Aggregate => self.aggregate(alloc),
            StepAction::SetOperation => self.set_operation(alloc),
            StepAction::PlanId => self.set_plan_id(),
            StepAction::DeduplicateOn => {
                let names = self.names.take_all(alloc);
                self.deduplicate(alloc, names, None)
            }
            StepAction::Deduplicate => self.deduplicate(alloc, List::new(alloc), Some(true)),
            StepAction::JoinOn => {
                let condition = self.expressions.take(star());
                self.join(alloc, Some(condition), List::new(alloc))
            }
            StepAction::JoinUsing => {
                let names = self.names.take_all(alloc);
                self.join(alloc, None, names)
            }
            StepAction::JoinAll => self.join(alloc, None, List::new(alloc)),
            StepAction::Write => self.write_table(alloc, 1),
            StepAction::Insert => self.write_table(alloc, 2),
        }
    }
}
