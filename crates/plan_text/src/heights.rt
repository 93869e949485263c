ghost use Rattle.std.specs.Prelude.{◌≡◌, [], OnOk, IfOk};
ghost use Rattle.expression_messages.specs.Depths.{largest as greatest, told};
ghost use Rattle.plan_messages.specs.Depths.{plan_depth};
ghost use Rattle.plan_text.specs.Drafts.{plan_of_deeds as plan_built};
ghost use Rattle.plan_text.specs.Heights as heights;

use crate::pile::Pile;
use cn_base::{List, OutOfMemory};
use plan_grammar::{Action, Deed, Part, StepAction, UnitAction, Use};
use std::alloc::Global;
use std::mem;

/// How deep messages are nested in what is built of deeds. It is known before anything is built, so nothing is built that is too deep.
#[derive(Debug, Drop)]
pub struct Heights {
    pub expressions: Pile<u32>,
    /// The expressions before the arguments of each open call.
    pub outer: Pile<List<u32>>,
    /// The greatest of the keys.
    pub keys: u32,
    /// The greatest of the aliases.
    pub aliases: u32,
    /// The greatest of the sort orders.
    pub orders: u32,
    /// 1 where there are new names.
    pub renames: u32,
    pub relations: Pile<u32>,
    /// Whether a write was asked for.
    pub written: bool,
}

/// The greatest of these; 0 of none.
fn largest(heights: &[u32]) -> u32
    ensures { result ≡ greatest heights.now }
{
    let mut deepest = 0u32;
    for height in heights {
        deepest = deepest.max(*height);
    }
    deepest
}

impl Heights {
    /// Nothing. It takes no memory.
    fn new(alloc: Global) -> Heights
        ensures { result ≡ heights.no_heights }
    {
        Heights {
            expressions: Pile::new(alloc),
            outer: Pile::new(alloc),
            keys: 0,
            aliases: 0,
            orders: 0,
            renames: 0,
            relations: Pile::new(alloc),
            written: false,
        }
    }

    fn put(&mut self, height: u32) -> Result<(), OutOfMemory>
        ensures { OnOk result (self.new ≡ heights.with_height height self.old) }
    {
        self.expressions.put(height)
    }

    fn take_last(&mut self) -> u32
        ensures last { result ≡ heights.last_height self.old }
        ensures rest { self.new ≡ heights.without_last self.old }
    {
        self.expressions.take(2)
    }

    fn take_all(&mut self, alloc: Global) -> u32
        ensures largest { result ≡ heights.largest_height self.old }
        ensures none { self.new ≡ heights.without_all self.old }
    {
        let all = self.expressions.take_all(alloc);
        largest(all.as_slice())
    }

    fn over_last(&mut self) -> Result<(), OutOfMemory>
        ensures { OnOk result (self.new ≡ heights.over_last self.old) }
    {
        let operand = self.take_last();
        self.put(operand.saturating_add(2))
    }

    fn over_last_two(&mut self) -> Result<(), OutOfMemory>
        ensures { OnOk result (self.new ≡ heights.over_last_two self.old) }
    {
        let right = self.take_last();
        let left = self.take_last();
        self.put(left.max(right).saturating_add(2))
    }

    fn over_all(&mut self, alloc: Global) -> Result<(), OutOfMemory>
        ensures { OnOk result (self.new ≡ heights.over_all self.old) }
    {
        let arguments = self.take_all(alloc);
        self.expressions = Pile::of(self.outer.take(List::new(alloc)));
        self.put(arguments.saturating_add(2))
    }

    fn mark(&mut self, alloc: Global) -> Result<(), OutOfMemory>
        ensures { OnOk result (self.new ≡ heights.unit_height UnitAction.Mark self.old) }
    {
        let before = self.expressions.take_all(alloc);
        self.outer.put(before)
    }

    fn unit(&mut self, alloc: Global, action: UnitAction) -> Result<(), OutOfMemory>
        ensures { OnOk result (self.new ≡ heights.unit_height action self.old) }
    {
        match action {
            UnitAction::Identifier => Ok(()),
            UnitAction::True => self.put(2),
            UnitAction::False => self.put(2),
            UnitAction::Null => self.put(4),
            UnitAction::Attribute => self.put(2),
            UnitAction::AttributeOfPlan => self.put(2),
            UnitAction::Star => self.put(2),
            UnitAction::StarOf => self.put(2),
            UnitAction::Cast => {
                let operand = self.take_last();
                self.put(operand.max(2).saturating_add(2))
            }
            UnitAction::Alias => self.over_last(),
            UnitAction::Mark => self.mark(alloc),
            UnitAction::Call => self.over_all(alloc),
            UnitAction::CallDistinct => self.over_all(alloc),
        }
    }

    fn part(&mut self, alloc: Global, part: Part)
        ensures { self.new ≡ heights.part_height part self.old }
    {
        match part {
            Part::Renaming => self.renames = 1,
            Part::GroupKeys => self.keys = self.take_all(alloc),
            Part::Assign => {
                let height = self.take_last().saturating_add(1);
                self.aliases = self.aliases.max(height);
            }
            Part::Order => {
                let height = self.take_last().saturating_add(1);
                self.orders = self.orders.max(height);
            }
        }
    }

    fn put_relation(&mut self, height: u32) -> Result<(), OutOfMemory>
        ensures { OnOk result (self.new ≡ heights.with_relation_height height self.old) }
    {
        self.relations.put(height)
    }

    fn over_input(&mut self, other: u32) -> Result<(), OutOfMemory>
        ensures { OnOk result (self.new ≡ heights.over_input other self.old) }
    {
        let input = self.relations.take(2);
        self.relations.put(input.max(other).saturating_add(2))
    }

    fn over_inputs(&mut self, other: u32) -> Result<(), OutOfMemory>
        ensures { OnOk result (self.new ≡ heights.over_inputs other self.old) }
    {
        let right = self.relations.take(2);
        let left = self.relations.take(2);
        self.relations
            .put(left.max(right).max(other).saturating_add(2))
    }

    fn set_plan_id(&mut self) -> Result<(), OutOfMemory>
        ensures { OnOk result (self.new ≡ heights.step_height StepAction.PlanId self.old) }
    {
        let height = self.relations.take(2);
        self.relations.put(height.max(2))
    }

    fn filter(&mut self) -> Result<(), OutOfMemory>
        ensures { OnOk result (self.new ≡ heights.step_height StepAction.Filter self.old) }
    {
        let condition = self.take_last();
        self.over_input(condition)
    }

    fn project(&mut self, alloc: Global) -> Result<(), OutOfMemory>
        ensures { OnOk result (self.new ≡ heights.step_height StepAction.Project self.old) }
    {
        let expressions = self.take_all(alloc);
        self.over_input(expressions)
    }

    fn with_columns(&mut self) -> Result<(), OutOfMemory>
        ensures { OnOk result (self.new ≡ heights.step_height StepAction.WithColumns self.old) }
    {
        let aliases = mem::replace(&mut self.aliases, 0);
        self.over_input(aliases)
    }

    fn rename(&mut self) -> Result<(), OutOfMemory>
        ensures { OnOk result (self.new ≡ heights.step_height StepAction.Rename self.old) }
    {
        let renames = mem::replace(&mut self.renames, 0);
        self.over_input(renames)
    }

    fn sort(&mut self) -> Result<(), OutOfMemory>
        ensures { OnOk result (self.new ≡ heights.step_height StepAction.Sort self.old) }
    {
        let orders = mem::replace(&mut self.orders, 0);
        self.over_input(orders)
    }

    fn aggregate(&mut self, alloc: Global) -> Result<(), OutOfMemory>
        ensures { OnOk result (self.new ≡ heights.step_height StepAction.Aggregate self.old) }
    {
        let keys = mem::replace(&mut self.keys, 0);
        let aggregates = self.take_all(alloc);
        self.over_input(keys.max(aggregates))
    }

    fn join_on(&mut self) -> Result<(), OutOfMemory>
        ensures { OnOk result (self.new ≡ heights.step_height StepAction.JoinOn self.old) }
    {
        let condition = self.take_last();
        self.over_inputs(condition)
    }

    fn write(&mut self) -> Result<(), OutOfMemory>
        ensures { OnOk result (self.new ≡ heights.step_height StepAction.Write self.old) }
    {
        self.written = true;
        Ok(())
    }

    fn step(&mut self, alloc: Global, step: StepAction) -> Result<(), OutOfMemory>
        ensures { OnOk result (self.new ≡ heights.step_height step self.old) }
    {
        match step {
            StepAction::Range => self.put_relation(2),
            StepAction::Read => self.put_relation(3),
            StepAction::Values => self.put_relation(2),
            StepAction::Filter => self.filter(),
            StepAction::Project => self.project(alloc),
            StepAction::WithColumns => self.with_columns(),
            StepAction::Drop => self.over_input(0),
            StepAction::Rename => self.rename(),
            StepAction::ToDf => self.over_input(0),
            StepAction::SubqueryAlias => self.over_input(0),
            StepAction::Sort => self.sort(),
            StepAction::Limit => self.over_input(0),
            StepAction::Offset => self.over_input(0),
            StepAction::Aggregate => self.aggregate(alloc),
            StepAction::SetOperation => self.over_inputs(0),
            StepAction::PlanId => self.set_plan_id(),
            StepAction::DeduplicateOn => self.over_input(0),
            StepAction::Deduplicate => self.over_input(0),
            StepAction::JoinOn => self.join_on(),
            StepAction::JoinUsing => self.over_inputs(0),
            StepAction::JoinAll => self.over_inputs(0),
            StepAction::Write => self.write(),
            StepAction::Insert => self.write(),
        }
    }

    fn take(&mut self, used: Use) -> Result<(), OutOfMemory>
        ensures { OnOk result (self.new ≡ heights.taken_height used self.old) }
    {
        match used {
            Use::IntegerLiteral => self.put(2),
            Use::LongLiteral => self.put(2),
            Use::NegativeIntegerLiteral => self.put(2),
            Use::NegativeLongLiteral => self.put(2),
            Use::Text => self.put(2),
            Use::Date => self.put(2),
            _ => Ok(()),
        }
    }

    fn act(&mut self, alloc: Global, action: Action) -> Result<(), OutOfMemory>
        ensures { OnOk result (self.new ≡ heights.action_height action self.old) }
    {
        match action {
            Action::Binary(_) => self.over_last_two(),
            Action::Unary(_) => self.over_last(),
            Action::Unit(action) => self.unit(alloc, action),
            Action::Part(part) => {
                self.part(alloc, part);
                Ok(())
            }
            Action::Step(step) => self.step(alloc, step),
            Action::Choice(_) => Ok(()),
            Action::Kind(_) => Ok(()),
        }
    }

    /// Goes on with a deed.
    fn go_on(&mut self, alloc: Global, deed: &Deed) -> Result<(), OutOfMemory>
        ensures { OnOk result (self.new ≡ heights.deed_height deed.now self.old) }
    {
        match deed {
            Deed::Take(used, _) => self.take(*used),
            Deed::Act(action) => self.act(alloc, *action),
            Deed::Column(_) => Ok(()),
            Deed::Row => Ok(()),
        }
    }

    /// How deep messages are nested in the plan, its own among them.
    fn plan(&mut self) -> u32
        ensures { result ≡ heights.plan_height self.old }
    {
        let root = self.relations.take(2);
        if self.written {
            return root.max(1).saturating_add(3);
        }
        root.saturating_add(1)
    }
}

/// What deeds make, measured.
fn heights_of(alloc: Global, deeds: &[Deed]) -> Result<Heights, OutOfMemory>
    ensures { IfOk result (λ found. found ≡ heights.all_heights deeds.now heights.no_heights) }
{
    let mut found = Heights::new(alloc);
    for deed in deeds {
        found.go_on(alloc, deed)?;
    }
    Ok(found)
}

/// How deep messages are nested in the plan of deeds, its own message among them; 2^32 - 1 where there are more.
#[tactic(auto, using(crate::proofs::Measured::plan_measured))]
pub fn plan_height(alloc: Global, deeds: &[Deed]) -> Result<u32, OutOfMemory>
    ensures { IfOk result (λ height. height ≡ told (plan_depth (plan_built deeds.now))) }
{
    let mut heights = heights_of(alloc, deeds)?;
    Ok(heights.plan())
}
