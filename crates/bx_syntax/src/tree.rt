//! The tree of a module: what the grammar gives for its text. Operators of one level of the grammar
//! are kept as a list, so that how deep a tree is, is bounded by how deep its `~` and `(` nest. That a
//! module is the tree of some text, and so has fewer than 2 ^ 32 names, operators and bits, is kept in
//! its type. Which text has which tree is left to the readers.
ghost use Rattle.std.specs.Prelude.{◌≡◌, map};
ghost use Rattle.bx_syntax.specs.Parts.{module_tree, parts};
ghost use Rattle.bx_syntax.specs.Texts.{IsTree};

use bx_logic::{Name, Op};
use std::marker::Model;

/// An operator between two operands. `And` binds tighter than `Xor` and `Xnor`, and these tighter
/// than `Or`.
#[derive(Clone, Copy)]
pub enum Operator {
    And,
    Xor,
    Xnor,
    Or,
}

/// An expression.
#[cycle(tree)]
#[derive(Drop)]
pub enum Expr {
    Net(Name),
    Bit(bool),
    /// `~` and what it negates.
    Not(Box<Expr>),
    /// An expression in parentheses.
    Group(Box<Expr>),
    /// Operands of one level, joined from left to right: the first, the operator behind it, the second,
    /// and any further ones.
    Joined(Box<Expr>, Operator, Box<Expr>, Vec<Operand>),
}

/// A further operand of a level, with the operator before it.
#[cycle(tree)]
#[derive(Drop)]
pub struct Operand {
    pub operator: Operator,
    pub expr: Expr,
}

/// Whether a port is read or driven.
#[derive(Clone, Copy)]
pub enum Direction {
    Input,
    Output,
}

/// A port of the header, with its direction where the header gives one.
#[derive(Drop)]
pub struct Port {
    pub name: Name,
    pub direction: Option<Direction>,
}

/// What an item of a module says between two commas.
#[derive(Drop)]
pub enum Part {
    /// A declaration of a port's direction.
    Declaration(Direction, Name),
    /// A declaration of a wire, with what drives it where it says so.
    Wire(Name, Option<Expr>),
    /// An assignment.
    Assign(Name, Expr),
    /// An n-ary gate: what it drives, and its arguments.
    Gate(Op, Name, Vec<Expr>),
    /// A `buf` or a `not`: what it drives, and its argument.
    Copies(Op, Vec<Name>, Expr),
}

/// A module: its name, its ports in the order of the header, and its items in the order of the text,
/// each as the list of its parts.
#[derive(Drop)]
pub struct Module {
    name: Name,
    ports: Vec<Port>,
    items: Vec<Vec<Part>>,
}

impl Model for Module {
    ghost use Rattle.bx_syntax.specs.Parts.{ModuleTree, module_tree};
    ghost use Rattle.bx_syntax.specs.Codes.{module_code};
    ghost use Rattle.bx_syntax.specs.Texts.{IsTree};

    ghost Value = { ModuleTree };

    ghost coded = { module_code };

    ghost view = { λ m. module_tree m.name m.ports.items m.items.items };

    ghost invariant = { λ m. IsTree (module_tree m.name m.ports.items m.items.items) };
}

impl Module {
    // The module of these parts. Takes no memory.
    pub(crate) fn new(name: Name, ports: Vec<Port>, items: Vec<Vec<Part>>) -> Self
        requires { IsTree (module_tree name ports.items items.items) }
        ensures { result ≡ module_tree name ports.items items.items }
    {
        Module { name, ports, items }
    }

    /// The module's name.
    pub fn name(&self) -> &Name
        ensures name { result.now ≡ self.now.name }
        ensures tree { IsTree self.now }
    {
        &self.name
    }

    /// The ports, in the order of the header.
    pub fn ports(&self) -> &[Port]
        ensures ports { result.now ≡ self.now.ports }
        ensures tree { IsTree self.now }
    {
        &self.ports
    }

    /// The items, in the order of the text.
    pub fn items(&self) -> &[Vec<Part>]
        ensures items { map parts result.now ≡ self.now.items }
        ensures tree { IsTree self.now }
    {
        &self.items
    }
}
