//! The kinds of nodes of a mapped network. What a node of a kind gives is in the definitions beside
//! the contracts; nothing here evaluates one.
ghost use Rattle.std.specs.Prelude.{◌≡◌};
ghost use Rattle.bx_forms.specs.Kinds.{operands, slots};

/// What a node of a mapped network does.
#[derive(Clone, Copy, Debug, PartialEq, Eq)]
pub enum Kind {
    Input,
    Output,
    Not,
    Fan,
    And,
    Or,
    Nand,
    Nor,
    Xor,
    Xnor,
}

impl Kind {
    /// How many edges enter a node of this kind. Its operands are numbered from 0.
    pub fn operands(self) -> u8
        ensures { result ≡ operands self }
    {
        match self {
            Kind::Input => 0,
            Kind::Output | Kind::Not | Kind::Fan => 1,
            Kind::And | Kind::Or | Kind::Nand | Kind::Nor | Kind::Xor | Kind::Xnor => 2,
        }
    }

    /// How many edges leave a node of this kind. Its slots are numbered from 0.
    pub fn slots(self) -> u8
        ensures { result ≡ slots self }
    {
        match self {
            Kind::Output => 0,
            Kind::Fan => 2,
            _ => 1,
        }
    }
}
