ghost use Rattle.std.specs.Prelude.{IfOk, IfSome};
ghost use Rattle.table_store.specs.Standing.{AreTables};

use cn_base::{List, Text};
use cn_types::{Pair, Settings};
use std::alloc::{AllocError, Global};
use table_lines::TableLines;
use table_store::Tables;

/// What stands before a call: the lines of tables, and the settings.
#[derive(Drop)]
pub struct State {
    lines: Vec<String>,
    settings: Settings,
}

impl State {
    /// No table, and no setting.
    pub fn new(alloc: Global) -> State {
        State {
            lines: Vec::new(alloc),
            settings: Settings(List::new(alloc)),
        }
    }

    /// Takes a line with this first word that is no call: `table` and `row` lines are kept, `set KEY VALUE` sets a setting, and an empty line
    /// forgets all. Any other line changes nothing.
    pub fn take(&mut self, alloc: Global, name: &str, line: &str) -> Result<(), AllocError> {
        match name {
            "table" => self.add_line(alloc, line),
            "row" => self.add_line(alloc, line),
            "set" => self.set(alloc, line),
            "" => {
                *self = State::new(alloc);
                Ok(())
            }
            _ => Ok(()),
        }
    }

    fn add_line(&mut self, alloc: Global, line: &str) -> Result<(), AllocError> {
        let line = String::from_str(alloc, line)?;
        self.lines.push(line)?;
        Ok(())
    }

    fn set(&mut self, alloc: Global, line: &str) -> Result<(), AllocError> {
        let (_, rest) = line.split_once(" ").unwrap_or((line, ""));
        let (key, value) = rest.split_once(" ").unwrap_or((rest, ""));
        let key = Text::of(alloc, key).map_err(|_| AllocError)?;
        let value = Text::of(alloc, value).map_err(|_| AllocError)?;
        let pair = Pair {
            key,
            value: Some(value),
        };
        self.settings.0.push(pair).map_err(|_| AllocError)
    }

    pub fn settings(&self) -> &Settings {
        &self.settings
    }

    /// The tables of the lines; none where one is no line of a table in its place.
    pub fn tables(&self, alloc: Global) -> Result<Option<Tables>, AllocError>
        ensures { IfOk result (λ tables. IfSome tables AreTables) }
    {
        let mut tables = TableLines::new(alloc);
        for line in &self.lines {
            if !tables.line(alloc, line.as_bytes()).map_err(|_| AllocError)? {
                return Ok(None);
            }
        }
        let tables = tables.finish(alloc).map_err(|_| AllocError)?;
        Ok(Some(tables))
    }
}
