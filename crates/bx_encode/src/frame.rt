//! What a formula is made of: a network and a ratio that aren't too large. Here stand its counts, the numbers
//! of its variables, and the literals of these.
ghost use Rattle.std.specs.Prelude.{◌≡◌, ◌+◌, ◌*◌, ◌<◌, ◌≤◌, ◌^◌, length};
ghost use Rattle.bx_grid.specs.Tiles.{tile_count, IsGrid, IsTile, y_of};
ghost use Rattle.bx_encode.specs.Variables.{border_count, variable_count, number, is, isnt, IsVariable};
ghost use Rattle.bx_encode.specs.declared.variable.Variable.TheVariants.{NodeOn, Taken, Used, EdgeOn};
ghost use Rattle.bx_encode.specs.Windows.{in_window};
ghost use Rattle.bx_encode.specs.Families.{source, target};
ghost use Rattle.bx_encode.specs.declared.numbers.TheConstants.{MOST_NODES, MOST_AREA};

use crate::variable::Variable;
use bx_cnf::Lit;
use bx_grid::Ratio;
use bx_network::MappedNet;

// The network and the ratio of a formula.
#[derive(Drop)]
pub struct Frame<'a> {
    pub net: &'a MappedNet,
    pub ratio: Ratio,
    ghost grid: { IsGrid ratio },
    ghost few_nodes: { length net.now.nodes ≤ MOST_NODES },
    ghost few_tiles: { tile_count ratio ≤ MOST_AREA },
    ghost few_edges: { length net.now.edges ≤ 2 * MOST_NODES },
}

impl Frame<'_> {
    // How many tiles there are.
    pub fn tile_count(&self) -> u32
        ensures is { result ≡ tile_count self.now.ratio }
        ensures few { result ≤ 144 }
    {
        self.ratio.w * self.ratio.h
    }

    // How many nodes there are.
    pub fn node_count(&self) -> u32
        ensures is { result ≡ length self.now.net.now.nodes }
        ensures few { result ≤ 96 }
    {
        self.net.node_count()
    }

    // How many edges there are.
    pub fn edge_count(&self) -> u32
        ensures is { result ≡ length self.now.net.now.edges }
        ensures few { result ≤ 192 }
    {
        self.net.edge_count()
    }

    // How many variables there are.
    pub fn variable_count(&self) -> u32
        ensures is { result ≡ variable_count self.now.net.now self.now.ratio }
        ensures few { result < 2 ^ 31 }
    {
        let tiles = self.tile_count();
        self.node_count() * tiles + 3 * tiles + self.edge_count() * (2 * tiles)
    }

    // The variable 'node v stands on tile t'.
    pub fn node_on(&self, v: u32, t: u32) -> u32
        requires node { v ≤ length self.now.net.now.nodes }
        requires tile { IsTile self.now.ratio t }
        ensures is { result ≡ number self.now.net.now self.now.ratio (NodeOn v t) }
        ensures above { 0 < result }
        ensures few { result ≤ 14000 }
    {
        1 + v * self.tile_count() + t
    }

    // The variable 'tile t holds a node'.
    fn taken(&self, t: u32) -> u32
        requires { IsTile self.now.ratio t }
        ensures is { result ≡ number self.now.net.now self.now.ratio (Taken t) }
        ensures above { 0 < result }
        ensures few { result ≤ 14200 }
    {
        1 + self.node_count() * self.tile_count() + t
    }

    // The variable 'border b carries an edge'.
    fn used(&self, b: u32) -> u32
        requires { b < border_count self.now.ratio }
        ensures is { result ≡ number self.now.net.now self.now.ratio (Used b) }
        ensures above { 0 < result }
        ensures few { result ≤ 14500 }
    {
        1 + (self.node_count() + 1) * self.tile_count() + b
    }

    // The variable 'border b carries edge e'.
    pub fn edge_on(&self, e: u32, b: u32) -> u32
        requires edge { e ≤ length self.now.net.now.edges }
        requires border { b < border_count self.now.ratio }
        ensures is { result ≡ number self.now.net.now self.now.ratio (EdgeOn e b) }
        ensures above { 0 < result }
        ensures few { result ≤ 70000 }
    {
        let tiles = self.tile_count();
        1 + (self.node_count() + 3) * tiles + e * (2 * tiles) + b
    }

    // The variable's number, as the formula has it.
    pub fn number(&self, x: Variable) -> u32
        requires { IsVariable self.now.net.now self.now.ratio x }
        ensures is { result ≡ number self.now.net.now self.now.ratio x }
        ensures above { 0 < result }
        ensures few { result < 2 ^ 31 }
    {
        match x {
            Variable::NodeOn(v, t) => self.node_on(v, t),
            Variable::Taken(t) => self.taken(t),
            Variable::Used(b) => self.used(b),
            Variable::EdgeOn(e, b) => self.edge_on(e, b),
        }
    }

    // The literal that is true where what the variable says holds.
    pub fn is(&self, x: Variable) -> Lit
        requires { IsVariable self.now.net.now self.now.ratio x }
        ensures { result ≡ is self.now.net.now self.now.ratio x }
    {
        Lit::positive(self.number(x))
    }

    // The literal that is true where what the variable says doesn't hold.
    pub fn isnt(&self, x: Variable) -> Lit
        requires { IsVariable self.now.net.now self.now.ratio x }
        ensures { result ≡ isnt self.now.net.now self.now.ratio x }
    {
        Lit::negative(self.number(x))
    }

    // The node where an edge begins.
    pub fn source(&self, e: u32) -> u32
        requires { e < length self.now.net.now.edges }
        ensures is { result ≡ source self.now.net.now self.now.ratio e }
        ensures node { result < length self.now.net.now.nodes }
    {
        let _nodes = self.net.node_count();
        self.net.edge(e).source
    }

    // The node where an edge ends.
    pub fn target(&self, e: u32) -> u32
        requires { e < length self.now.net.now.edges }
        ensures is { result ≡ target self.now.net.now self.now.ratio e }
        ensures node { result < length self.now.net.now.nodes }
    {
        let _nodes = self.net.node_count();
        self.net.edge(e).target
    }

    // Whether a tile lies in the window of a node.
    pub fn in_window(&self, v: u32, t: u32) -> bool
        requires node { v < length self.now.net.now.nodes }
        requires tile { IsTile self.now.ratio t }
        ensures { result
            ≡ in_window self.now.net.now v (y_of self.now.ratio t) self.now.ratio.h }
    {
        let _nodes = self.net.node_count();
        self.net.in_window(v, t / self.ratio.w, self.ratio.h)
    }
}
