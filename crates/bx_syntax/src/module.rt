//! The reader of a module, from its first terminal to its last.
ghost use Rattle.std.specs.Prelude.{◌≡◌, ◌<◌, ◌^◌, length};
ghost use Rattle.bx_syntax.specs.Parts.{module_tree};
ghost use Rattle.bx_syntax.specs.ReadsModules.{at_end, module_at};
ghost use Rattle.bx_syntax.specs.Gives.{Gives, GivesRest};

use crate::expression::DEEPEST;
use crate::header::header;
use crate::item::items;
use crate::lookahead::{expect, name};
use crate::stop::{Stop, Wanted};
use crate::terminal::{Mark, Terminal};
use crate::tree::{Module, Part, Port};
use bx_logic::Name;
use std::alloc::Global;
use std::collections::VecDeque;

// A module and nothing behind it.
pub(crate) fn module(alloc: Global, terminals: &mut VecDeque<Terminal>) -> Result<Module, Stop>
    requires { length terminals.old.items < 2 ^ 32 }
    ensures { Gives (λ m. m) terminals.new.items result (module_at DEEPEST terminals.old.items) }
{
    let (name, ports, items) = fields(alloc, terminals)?;
    Ok(Module::new(name, ports, items))
}

// What a module keeps, with nothing behind it.
#[tactic(auto, unfolding(crate::specs::ReadsModules::module_at))]
fn fields(
    alloc: Global,
    terminals: &mut VecDeque<Terminal>,
) -> Result<(Name, Vec<Port>, Vec<Vec<Part>>), Stop>
    ensures { Gives (λ m. module_tree m.0 m.1.items m.2.items) terminals.new.items result
        (module_at DEEPEST terminals.old.items) }
{
    expect(terminals, Mark::Module)?;
    let name = name(terminals)?;
    let ports = header(alloc, terminals)?;
    expect(terminals, Mark::Semicolon)?;
    let items = items(alloc, terminals)?;
    expect(terminals, Mark::EndModule)?;
    end(terminals)?;
    Ok((name, ports, items))
}

// That nothing is left.
fn end(terminals: &VecDeque<Terminal>) -> Result<(), Stop>
    ensures { GivesRest terminals.now.items result (at_end terminals.now.items) }
{
    if terminals.is_empty() {
        return Ok(());
    }
    Err(Stop::Bad(terminals.len(), Wanted::End))
}
