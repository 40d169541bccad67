//! The names of a module where they stand behind its own, each with what it stands for. It promises all
//! of them in the order of the text; what follows from them is left to others.
ghost use Rattle.std.specs.Prelude.{◌≡◌, ◌∷◌, [], map, flat_map, IfOk, OnOk};
ghost use Rattle.bx_syntax.specs.Trees.{tree};
ghost use Rattle.bx_syntax.specs.Parts.{part, parts};
ghost use Rattle.bx_syntax.specs.Texts.{IsTree};
ghost use Rattle.bx_verilog.specs.Formulas.{formula};
ghost use Rattle.bx_verilog.specs.Mentions.{all_as, port_mentions, reads_mentions, part_mentions, mentions as mentions_of};
ghost use Rattle.bx_verilog.specs.Shown.{shown, AreAdded};

use crate::role::Role;
use bx_logic::{Name, NoMemory};
use bx_syntax::Module;
use bx_syntax::tree::{Expr, Operand, Part, Port};
use std::alloc::Global;

/// A name where it stands in a module, and what it stands for.
#[derive(Clone, Copy)]
pub(crate) struct Mention<'a> {
    pub name: &'a [u8],
    pub role: Role,
}

/// The names behind the module's own, in the order of the text.
pub(crate) fn mentions(alloc: Global, parsed: &Module) -> Result<Vec<Mention<'_>>, NoMemory>
    ensures found { IfOk result (λ found. map shown found.items ≡ mentions_of parsed.now) }
    // A module is the tree of some text.
    ensures tree { IsTree parsed.now }
{
    let mut found = Vec::new(alloc);
    push_ports(parsed.ports(), &mut found)?;
    push_items(parsed.items(), &mut found)?;
    Ok(found)
}

// The names of the header.
fn push_ports<'a>(ports: &'a [Port], found: &mut Vec<Mention<'a>>) -> Result<(), NoMemory>
    ensures { OnOk result
        (AreAdded found.old.items found.new.items (flat_map port_mentions ports.now)) }
{
    for port in ports {
        push_port(port, found)?;
    }
    Ok(())
}

// The name of a port of the header, which stands for its direction too where it has one.
fn push_port<'a>(port: &'a Port, found: &mut Vec<Mention<'a>>) -> Result<(), NoMemory>
    ensures { OnOk result (AreAdded found.old.items found.new.items (port_mentions port.now)) }
{
    push_name(&port.name, Role::Header, found)?;
    if let Some(direction) = port.direction {
        push_name(&port.name, Role::Directed(direction), found)?;
    }
    Ok(())
}

// The names of items.
fn push_items<'a>(items: &'a [Vec<Part>], found: &mut Vec<Mention<'a>>) -> Result<(), NoMemory>
    ensures { OnOk result
        (AreAdded found.old.items found.new.items
        (flat_map part_mentions (flat_map (λ item. item) (map parts items.now)))) }
{
    for item in items {
        push_item(item, found)?;
    }
    Ok(())
}

// The names of an item.
fn push_item<'a>(item: &'a [Part], found: &mut Vec<Mention<'a>>) -> Result<(), NoMemory>
    ensures { OnOk result
        (AreAdded found.old.items found.new.items (flat_map part_mentions (map part item.now))) }
{
    for part in item {
        push_part(part, found)?;
    }
    Ok(())
}

// The names of a part.
fn push_part<'a>(item: &'a Part, found: &mut Vec<Mention<'a>>) -> Result<(), NoMemory>
    ensures { OnOk result
        (AreAdded found.old.items found.new.items (part_mentions (part item.now))) }
{
    match item {
        Part::Declaration(direction, name) => push_name(name, Role::Directed(*direction), found),
        Part::Wire(name, None) => push_name(name, Role::Wired, found),
        Part::Wire(name, Some(expr)) | Part::Assign(name, expr) => push_driven(name, expr, found),
        Part::Gate(_, name, arguments) => {
            push_name(name, Role::Driven, found)?;
            push_arguments(arguments, found)
        }
        Part::Copies(_, outputs, expr) => {
            push_outputs(outputs, found)?;
            push_reads(expr, found)
        }
    }
}

// A name that an expression drives, and the names that this reads.
fn push_driven<'a>(
    name: &'a Name,
    expr: &'a Expr,
    found: &mut Vec<Mention<'a>>,
) -> Result<(), NoMemory>
    ensures { OnOk result
        (AreAdded found.old.items found.new.items
        ((name.now, Role.Driven) ∷ reads_mentions (formula (tree expr.now)))) }
{
    push_name(name, Role::Driven, found)?;
    push_reads(expr, found)
}

// The names that a `buf` or a `not` drives.
fn push_outputs<'a>(outputs: &'a [Name], found: &mut Vec<Mention<'a>>) -> Result<(), NoMemory>
    ensures { OnOk result
        (AreAdded found.old.items found.new.items (all_as Role.Driven outputs.now)) }
{
    for output in outputs {
        push_name(output, Role::Driven, found)?;
    }
    Ok(())
}

// The names that the arguments of a gate read.
fn push_arguments<'a>(arguments: &'a [Expr], found: &mut Vec<Mention<'a>>) -> Result<(), NoMemory>
    ensures { OnOk result
        (AreAdded found.old.items found.new.items
        (flat_map (λ e. reads_mentions (formula e)) (map tree arguments.now))) }
{
    for argument in arguments {
        push_reads(argument, found)?;
    }
    Ok(())
}

// The names that an expression reads.
#[cycle(reads)]
fn push_reads<'a>(expr: &'a Expr, found: &mut Vec<Mention<'a>>) -> Result<(), NoMemory>
    ensures { OnOk result
        (AreAdded found.old.items found.new.items (reads_mentions (formula (tree expr.now)))) }
{
    match expr {
        Expr::Net(name) => push_name(name, Role::Read, found),
        Expr::Bit(_) => Ok(()),
        Expr::Not(inner) | Expr::Group(inner) => push_reads(inner, found),
        Expr::Joined(first, _, second, operands) => {
            push_reads(first, found)?;
            push_reads(second, found)?;
            push_operands(operands, found)
        }
    }
}

// The names that operands read.
#[cycle(reads)]
fn push_operands<'a>(
    operands: &'a Vec<Operand>,
    found: &mut Vec<Mention<'a>>,
) -> Result<(), NoMemory>
    ensures { OnOk result
        (AreAdded found.old.items found.new.items
        (flat_map (λ o. reads_mentions (formula (tree o.expr))) operands.now.items)) }
{
    for operand in operands {
        push_reads(&operand.expr, found)?;
    }
    Ok(())
}

// Puts a name behind those that were found before.
fn push_name<'a>(name: &'a Name, role: Role, found: &mut Vec<Mention<'a>>) -> Result<(), NoMemory>
    ensures { OnOk result (AreAdded found.old.items found.new.items ((name.now, role) ∷ [])) }
{
    let name = name.as_slice();
    found.push(Mention { name, role })?;
    Ok(())
}
