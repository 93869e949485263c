ghost use Rattle.std.specs.Prelude.{◌≡◌, OnOk};
ghost use Rattle.plan_text.specs.Drafts as drafts;

use crate::draft::Draft;
use crate::makers::{alias, attribute, binary_name, call, star, type_of, unary_name};
use crate::names::part_of;
use crate::pile::Pile;
use cn_base::{Boxed, List, OutOfMemory, Text};
use cn_types::DataType;
use plan_grammar::{Binary, Unary, UnitAction};
use plan_messages::{Cast, CastTarget, Expr, Literal, UnresolvedStar};
use std::alloc::Global;

/// Makes a call of the last two expressions.
pub fn call_two(
    alloc: Global,
    expressions: &mut Pile<Expr>,
    operator: Binary,
) -> Result<(), OutOfMemory>
    ensures { OnOk result (expressions.new ≡ drafts.with_binary (drafts.binary_name operator) expressions.old) }
{
    let right = expressions.take(star());
    let left = expressions.take(star());
    let mut arguments = List::new(alloc);
    arguments.push(left)?;
    arguments.push(right)?;
    let made = call(alloc, binary_name(operator), arguments, false)?;
    expressions.put(made)
}

/// Makes a call of the last expression.
pub fn call_one(
    alloc: Global,
    expressions: &mut Pile<Expr>,
    operator: Unary,
) -> Result<(), OutOfMemory>
    ensures { OnOk result (expressions.new ≡ drafts.with_unary (drafts.unary_name operator) expressions.old) }
{
    let operand = expressions.take(star());
    let mut arguments = List::new(alloc);
    arguments.push(operand)?;
    let made = call(alloc, unary_name(operator), arguments, false)?;
    expressions.put(made)
}

impl Draft {
    /// The last name; the empty one where there is none.
    pub fn take_name(&mut self, alloc: Global) -> Text
        ensures name { result ≡ drafts.top_name self.old }
        ensures rest { self.new ≡ drafts.without_name self.old }
    {
        self.names.take(Text::new(alloc))
    }

    /// Puts a literal.
    pub fn put_literal(&mut self, literal: Literal) -> Result<(), OutOfMemory>
        ensures { OnOk result (self.new ≡ drafts.with_literal literal self.old) }
    {
        self.expressions.put(Expr::Literal(literal))
    }

    /// Makes a call of all expressions since its mark.
    fn make_call(&mut self, alloc: Global, distinct: bool) -> Result<(), OutOfMemory>
        ensures { OnOk result (self.new ≡ drafts.with_call distinct self.old) }
    {
        let name = self.take_name(alloc);
        let arguments = self.expressions.take_all(alloc);
        let made = call(alloc, name.as_str(), arguments, distinct)?;
        self.expressions = Pile::of(self.outer.take(List::new(alloc)));
        self.expressions.put(made)
    }

    fn make_cast(&mut self, alloc: Global) -> Result<(), OutOfMemory>
        ensures { OnOk result (self.new ≡ drafts.with_cast self.old) }
    {
        let kind = type_of(self.kinds.take(DataType::Long));
        let operand = Boxed::new(alloc, self.expressions.take(star()))?;
        self.expressions.put(Expr::Cast(Cast {
            expr: operand,
            target: CastTarget::Kind(kind),
        }))
    }

    fn make_alias(&mut self, alloc: Global) -> Result<(), OutOfMemory>
        ensures { OnOk result (self.new ≡ drafts.with_alias self.old) }
    {
        let name = self.take_name(alloc);
        let named = alias(alloc, name, self.expressions.take(star()))?;
        self.expressions.put(Expr::Alias(named))
    }

    fn make_attribute_of_plan(&mut self, alloc: Global) -> Result<(), OutOfMemory>
        ensures { OnOk result (self.new ≡ drafts.with_attribute_of_plan self.old) }
    {
        let name = self.take_name(alloc);
        let number = self.numbers.take(0);
        let identifier = part_of(alloc, name)?;
        self.expressions.put(attribute(identifier, Some(number)))
    }

    fn make_identifier(&mut self, alloc: Global) -> Result<(), OutOfMemory>
        ensures { OnOk result (self.new ≡ drafts.with_identifier self.old) }
    {
        let name = self.take_name(alloc);
        let identifier = part_of(alloc, name)?;
        self.names.put(identifier)
    }

    /// Does what makes units and items.
    #[tactic(auto, unfolding(crate::specs::Drafts::unit_done))]
    pub fn do_unit(&mut self, alloc: Global, action: UnitAction) -> Result<(), OutOfMemory>
        ensures { OnOk result (self.new ≡ drafts.unit_done action self.old) }
    {
        match action {
            UnitAction::True => self.put_literal(Literal::Boolean(true)),
            UnitAction::False => self.put_literal(Literal::Boolean(false)),
            UnitAction::Null => {
                let kind = type_of(self.kinds.take(DataType::Long));
                self.put_literal(Literal::Null(kind))
            }
            UnitAction::Cast => self.make_cast(alloc),
            UnitAction::Identifier => self.make_identifier(alloc),
            UnitAction::Attribute => {
                let identifier = self.take_name(alloc);
                self.expressions.put(attribute(identifier, None))
            }
            UnitAction::AttributeOfPlan => self.make_attribute_of_plan(alloc),
            UnitAction::Mark => {
                let before = self.expressions.take_all(alloc);
                self.outer.put(before)
            }
            UnitAction::Call => self.make_call(alloc, false),
            UnitAction::CallDistinct => self.make_call(alloc, true),
            UnitAction::Star => self.expressions.put(star()),
            UnitAction::StarOf => {
                let target = self.take_name(alloc);
                self.expressions.put(Expr::UnresolvedStar(UnresolvedStar {
                    unparsed_target: Some(target),
                }))
            }
            UnitAction::Alias => self.make_alias(alloc),
        }
    }
}
