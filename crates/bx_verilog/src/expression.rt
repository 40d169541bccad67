//! The nets of expressions: those that an expression has besides the ones of its names stand behind
//! them, operands before what joins them. Which names there are, and what the expressions are for, is
//! left to others.
ghost use Rattle.std.specs.Prelude.{◌≡◌, ◌+◌, ◌<◌, ◌++◌, [], ◌∷◌, length, IfOk, OnOk};
ghost use Rattle.bx_logic.specs.declared.driver.Driver.TheVariants.{Gate};
ghost use Rattle.bx_syntax.specs.Trees.{tree};
ghost use Rattle.bx_verilog.specs.Formulas.{formula, operation as operation_of};
ghost use Rattle.bx_verilog.specs.Elaboration.{own, all_own};
ghost use Rattle.bx_verilog.specs.Lowering.{IsLowered, AreLowered, NetsFit, formulas};

use crate::names::Names;
use bx_logic::{Args, Driver, NoMemory, Op};
use bx_syntax::tree::{Expr, Operator};
use std::alloc::Global;

/// Puts the drivers of the own nets of expressions, one expression behind the other, behind the others,
/// and answers the numbers of the expressions' nets.
pub(crate) fn nets_of_expressions(
    alloc: Global,
    names: &Names,
    inner: &mut Vec<Driver>,
    exprs: &[Expr],
) -> Result<Vec<u32>, NoMemory>
    requires { NetsFit names.now inner.old.items (all_own (formulas exprs.now)) }
    ensures { IfOk result
        (λ ns. AreLowered names.now inner.old.items inner.new.items (formulas exprs.now) ns.items) }
{
    let mut nets = Vec::new(alloc);
    for expr in exprs {
        nets.push(net_of_expression(alloc, names, inner, expr)?)?;
    }
    Ok(nets)
}

/// Puts the drivers of an expression's own nets behind the others, and answers the number of its net.
pub(crate) fn net_of_expression(
    alloc: Global,
    names: &Names,
    inner: &mut Vec<Driver>,
    expr: &Expr,
) -> Result<u32, NoMemory>
    requires { NetsFit names.now inner.old.items (own (formula (tree expr.now))) }
    ensures { IfOk result
        (λ net. IsLowered names.now inner.old.items inner.new.items (formula (tree expr.now)) net) }
{
    match expr {
        Expr::Net(name) => Ok(names.number(name.as_slice())),
        Expr::Bit(bit) => push(names, inner, Driver::Constant(*bit)),
        Expr::Not(negated) => {
            let net = net_of_expression(alloc, names, inner, negated)?;
            push_gate(alloc, names, inner, Op::Not, &[net])
        }
        Expr::Group(grouped) => net_of_expression(alloc, names, inner, grouped),
        Expr::Joined(first, operator, second, operands) => {
            let left = net_of_expression(alloc, names, inner, first)?;
            let right = net_of_expression(alloc, names, inner, second)?;
            let gate = operation(*operator);
            let mut net = push_gate(alloc, names, inner, gate, &[left, right])?;
            for operand in operands {
                let other = net_of_expression(alloc, names, inner, &operand.expr)?;
                net = push_gate(
                    alloc,
                    names,
                    inner,
                    operation(operand.operator),
                    &[net, other],
                )?;
            }
            Ok(net)
        }
    }
}

// Puts the gate of an operation over these nets behind the other drivers, and answers its number.
fn push_gate(
    alloc: Global,
    names: &Names,
    inner: &mut Vec<Driver>,
    op: Op,
    arguments: &[u32],
) -> Result<u32, NoMemory>
    requires some { 0 < length arguments.now }
    requires fits { length names.now + length inner.old.items < 4294967296 }
    ensures drivers { OnOk result
        (inner.new.items ≡ inner.old.items ++ (Gate op arguments.now ∷ [])) }
    ensures number { IfOk result (λ net. net ≡ length names.now + length inner.old.items) }
{
    let arguments = Args::new(arguments.to_vec(alloc)?);
    push(names, inner, Driver::Gate(op, arguments))
}

// Puts a driver behind the others, and answers the number of its net.
fn push(names: &Names, inner: &mut Vec<Driver>, driver: Driver) -> Result<u32, NoMemory>
    requires { length names.now + length inner.old.items < 4294967296 }
    ensures drivers { OnOk result
        (inner.new.items ≡ inner.old.items ++ (driver ∷ [])) }
    ensures number { IfOk result (λ net. net ≡ length names.now + length inner.old.items) }
{
    let number = names.len() + inner.len() as u32;
    inner.push(driver)?;
    Ok(number)
}

// The gate of two arguments that an operator is.
fn operation(operator: Operator) -> Op
    ensures { result ≡ operation_of operator }
{
    match operator {
        Operator::And => Op::And,
        Operator::Xor => Op::Xor,
        Operator::Xnor => Op::Xnor,
        Operator::Or => Op::Or,
    }
}
