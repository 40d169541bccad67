//! How often each name of a module stands for what. It promises the counts; what is wrong where a name
//! stands for too much or too little is for others to say.
ghost use Rattle.std.specs.Prelude.{◌≡◌, map, IfOk};
ghost use Rattle.bx_verilog.specs.Mentions.{firsts};
ghost use Rattle.bx_verilog.specs.Shown.{shown};
ghost use Rattle.bx_verilog.specs.Uses.{HasRoom, uses_and, uses_among};

use crate::mentions::Mention;
use crate::names::Names;
use crate::role::Role;
use bx_logic::NoMemory;
use bx_syntax::tree::Direction;
use std::alloc::Global;

/// How often a name stands for what. An input is driven by its declaration.
#[derive(Clone, Copy)]
pub(crate) struct Uses {
    pub header: usize,
    pub directed: usize,
    pub input: usize,
    pub output: usize,
    pub driven: usize,
    pub read: usize,
}

/// The uses of each name of these mentions, in the order of the names' numbers.
pub(crate) fn uses_of(
    alloc: Global,
    names: &Names,
    mentions: &[Mention],
) -> Result<Vec<Uses>, NoMemory>
    requires { names.now ≡ firsts (map (λ x. x.name.now) mentions.now) }
    ensures { IfOk result (λ uses. uses.items ≡
        map (uses_among (map shown mentions.now)) names.now) }
{
    let mut uses = vec![in alloc; Uses::NONE; names.len() as usize]?;
    for mention in mentions {
        uses[names.number(mention.name) as usize].note(mention.role);
    }
    Ok(uses)
}

impl Uses {
    // The uses of a name that stands nowhere.
    const NONE: Uses = Uses {
        header: 0,
        directed: 0,
        input: 0,
        output: 0,
        driven: 0,
        read: 0,
    };

    // Counts one use more.
    fn note(&mut self, role: Role)
        requires { HasRoom self.old }
        ensures { self.new ≡ uses_and role self.old }
    {
        match role {
            Role::Header => self.header += 1,
            Role::Directed(Direction::Input) => {
                self.directed += 1;
                self.input += 1;
                self.driven += 1;
            },
            Role::Directed(Direction::Output) => {
                self.directed += 1;
                self.output += 1;
            },
            Role::Wired => {},
            Role::Driven => self.driven += 1,
            Role::Read => self.read += 1,
        }
    }
}
