ghost use Rattle.std.specs.Prelude.{◌≡◌, IfOk, OnOk};
ghost use Rattle.plan_text.specs.Drafts as drafts;
ghost use Rattle.plan_text.specs.Writable.{CanAct, CanDo};

use crate::draft::Draft;
use crate::makers::{as_integer, long_of, negative_long_of};
use crate::names::part_of;
use cn_base::{List, OutOfMemory, Text};
use cn_types::{Field, Row, Value};
use plan_grammar::{Action, Cell, Deed, Use};
use plan_messages::Literal;
use plan_tokens::Token;
use std::alloc::Global;
use std::mem;

/// The name that a token is; the empty one where it is none.
fn name_in(alloc: Global, token: Token) -> Result<Text, OutOfMemory>
    ensures { IfOk result (λ t. t ≡ drafts.name_in token) }
{
    match token {
        Token::Name(name) => Ok(name),
        Token::Word(_) => Text::of(alloc, "id"),
        Token::Quotation(_) => Ok(Text::new(alloc)),
        Token::Number(_) => Ok(Text::new(alloc)),
        Token::Minus(_) => Ok(Text::new(alloc)),
        Token::Sign(_) => Ok(Text::new(alloc)),
        Token::Nothing => Ok(Text::new(alloc)),
        Token::End => Ok(Text::new(alloc)),
    }
}

fn number_in(token: Token) -> u64
    ensures { result ≡ drafts.number_in token }
{
    match token {
        Token::Number(number) => number.value,
        _ => 0,
    }
}

fn text_in(alloc: Global, token: Token) -> Text
    ensures { result ≡ drafts.text_in token }
{
    match token {
        Token::Quotation(quotation) => quotation.text,
        Token::Name(_) => Text::new(alloc),
        Token::Word(_) => Text::new(alloc),
        Token::Number(_) => Text::new(alloc),
        Token::Minus(_) => Text::new(alloc),
        Token::Sign(_) => Text::new(alloc),
        Token::Nothing => Text::new(alloc),
        Token::End => Text::new(alloc),
    }
}

fn day_in(token: Token) -> i32
    ensures { result ≡ drafts.day_in token }
{
    match token {
        Token::Quotation(quotation) => quotation.day.unwrap_or(0),
        _ => 0,
    }
}

/// The value of a cell.
fn cell_of(alloc: Global, cell: Cell, token: Token) -> Value
    ensures { result ≡ drafts.cell_of cell token }
{
    match cell {
        Cell::Null => Value::Null,
        Cell::Integer => Value::Integer(as_integer(long_of(number_in(token)))),
        Cell::Long => Value::Long(long_of(number_in(token))),
        Cell::NegativeInteger => Value::Integer(as_integer(negative_long_of(number_in(token)))),
        Cell::NegativeLong => Value::Long(negative_long_of(number_in(token))),
        Cell::Text => Value::Text(text_in(alloc, token)),
        Cell::True => Value::Boolean(true),
        Cell::False => Value::Boolean(false),
        Cell::Date => Value::Date(day_in(token)),
    }
}

impl Draft {
    fn put_name(&mut self, alloc: Global, token: Token) -> Result<(), OutOfMemory>
        ensures { OnOk result (self.new ≡ drafts.name_put token self.old) }
    {
        let name = name_in(alloc, token)?;
        self.names.put(name)
    }

    fn put_part(&mut self, alloc: Global, token: Token) -> Result<(), OutOfMemory>
        ensures { OnOk result (self.new ≡ drafts.part_put token self.old) }
    {
        let name = name_in(alloc, token)?;
        let part = part_of(alloc, name)?;
        let mut identifier = self.take_name(alloc);
        identifier.append(".")?;
        identifier.append(part.as_str())?;
        self.names.put(identifier)
    }

    fn put_cell(&mut self, alloc: Global, cell: Cell, token: Token) -> Result<(), OutOfMemory>
        ensures { OnOk result (self.new ≡ drafts.cell_put cell token self.old) }
    {
        let value = cell_of(alloc, cell, token);
        self.row.push(value)
    }

    fn put_text(&mut self, alloc: Global, token: Token) -> Result<(), OutOfMemory>
        ensures { OnOk result (self.new ≡ drafts.text_put token self.old) }
    {
        let text = text_in(alloc, token);
        self.put_literal(Literal::String(text))
    }

    /// Takes a token for a use.
    fn take_token(&mut self, alloc: Global, used: Use, token: Token) -> Result<(), OutOfMemory>
        ensures { OnOk result (self.new ≡ drafts.taken used token self.old) }
    {
        match used {
            Use::Nothing => Ok(()),
            Use::NewColumns => {
                self.columns = List::new(alloc);
                self.row = List::new(alloc);
                self.rows = List::new(alloc);
                Ok(())
            }
            Use::Name => self.put_name(alloc, token),
            Use::Part => self.put_part(alloc, token),
            Use::Integer => self.numbers.put(long_of(number_in(token))),
            Use::NegativeInteger => self.numbers.put(negative_long_of(number_in(token))),
            Use::Long => self.numbers.put(long_of(number_in(token))),
            Use::NegativeLong => self.numbers.put(negative_long_of(number_in(token))),
            Use::IntegerLiteral => {
                self.put_literal(Literal::Integer(as_integer(long_of(number_in(token)))))
            }
            Use::LongLiteral => self.put_literal(Literal::Long(long_of(number_in(token)))),
            Use::NegativeIntegerLiteral => self.put_literal(Literal::Integer(as_integer(
                negative_long_of(number_in(token)),
            ))),
            Use::NegativeLongLiteral => {
                self.put_literal(Literal::Long(negative_long_of(number_in(token))))
            }
            Use::Text => self.put_text(alloc, token),
            Use::Date => self.put_literal(Literal::Date(day_in(token))),
            Use::Cell(cell) => self.put_cell(alloc, cell, token),
        }
    }

    fn do_action(&mut self, alloc: Global, action: Action) -> Result<(), OutOfMemory>
        requires { CanAct action self.old }
        ensures { OnOk result (self.new ≡ drafts.done action self.old) }
    {
        match action {
            Action::Binary(operator) => {
                crate::units::call_two(alloc, &mut self.expressions, operator)
            }
            Action::Unary(operator) => {
                crate::units::call_one(alloc, &mut self.expressions, operator)
            }
            Action::Unit(action) => self.do_unit(alloc, action),
            Action::Part(part) => self.do_part(alloc, part),
            Action::Choice(choice) => crate::parts::choose(&mut self.choices, choice),
            Action::Step(step) => self.do_step(alloc, step),
            Action::Kind(kind) => self.kinds.put(kind),
        }
    }

    /// Does a deed of a text.
    pub fn build(&mut self, alloc: Global, deed: Deed) -> Result<(), OutOfMemory>
        requires { CanDo deed self.old }
        ensures { OnOk result (self.new ≡ drafts.built deed self.old) }
    {
        match deed {
            Deed::Take(used, token) => self.take_token(alloc, used, token),
            Deed::Act(action) => self.do_action(alloc, action),
            Deed::Column(kind) => {
                let name = self.take_name(alloc);
                self.columns.push(Field {
                    name,
                    kind,
                    nullable: true,
                })
            }
            Deed::Row => {
                let values = mem::replace(&mut self.row, List::new(alloc));
                self.rows.push(Row(values))
            }
        }
    }
}
