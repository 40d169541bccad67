//! The clauses against forms that aren't permitted, tile by tile and form by form.
ghost use Rattle.std.specs.Prelude.{◌≡◌, ◌<◌, ◌&&◌, ◌++◌, [], None, not, length, true, false, if◌then◌else◌, IfOk, IfSome};
ghost use Rattle.bx_forms.specs.declared.table.TheConstants.{FORMS};
ghost use Rattle.bx_forms.specs.declared.side.Side.TheVariants.{Left, Right};
ghost use Rattle.bx_forms.specs.Forms.{form_node, form_upper, form_lower, form_value};
ghost use Rattle.bx_grid.specs.Tiles.{IsTile};
ghost use Rattle.bx_layout.specs.Permits.{test_of};
ghost use Rattle.bx_layout.specs.TileForms.{on_side};
ghost use Rattle.bx_encode.specs.declared.variable.Variable.TheVariants.{Used};
ghost use Rattle.bx_encode.specs.Variables.{border_count, literal_for};
ghost use Rattle.bx_encode.specs.Families.{kind_number, used_side, is_of_kind, bars_above, bars_below, bars_both, bars_node, bars_nodes, used_unlike, bars_wire, bars_way, bars_two, bars, bars_all, is_permitted};
ghost use Rattle.bx_encode.specs.Writing.{IsFor, Writes};

use crate::frame::Frame;
use crate::variable::Variable;
use crate::writer::Writer;
use bx_cnf::Lit;
use bx_forms::{Form, Kind, Side, Sides};
use bx_grid::{border, entering};
use bx_layout::Permit;
use bx_logic::NoMemory;

// As many forms as the table has lines.
const FORM_COUNT: u8 = 28;

// A tile, and the upper and the lower side by which a form is known there.
#[derive(Clone, Copy)]
struct Spot {
    tile: u32,
    upper: Side,
    lower: Side,
}

// No tile has a form that isn't permitted there.
pub fn add_is_permitted(frame: &Frame, permit: &Permit, to: &mut Writer) -> Result<(), NoMemory>
    requires vars { IsFor frame.now to.old }
    ensures { IfOk result (λ _. Writes frame.now to.old to.new
        (λ N r. is_permitted N r (test_of permit.now))) }
{
    for t in 0..frame.tile_count() {
        add_permitted_on(frame, permit, t, to)?;
    }
    Ok(())
}

// This tile has none of the forms that aren't permitted there.
fn add_permitted_on(frame: &Frame, permit: &Permit, t: u32, to: &mut Writer) -> Result<(), NoMemory>
    requires vars { IsFor frame.now to.old }
    requires tile { IsTile frame.now.ratio t }
    ensures { IfOk result (λ _. Writes frame.now to.old to.new
        (λ N r. bars_all N r (test_of permit.now) t)) }
{
    for number in 0..FORM_COUNT {
        add_numbered(frame, permit, t, number, to)?;
    }
    Ok(())
}

// This tile doesn't have the form of this number, if it isn't permitted there.
fn add_numbered(
    frame: &Frame,
    permit: &Permit,
    t: u32,
    number: u8,
    to: &mut Writer,
) -> Result<(), NoMemory>
    requires vars { IsFor frame.now to.old }
    requires tile { IsTile frame.now.ratio t }
    requires form { number < length FORMS }
    ensures { IfOk result (λ _. Writes frame.now to.old to.new
        (λ N r. if not (test_of permit.now r t number) then bars N r t number else [])) }
{
    match Form::from_number(number) {
        Some(form) => add_unless_permitted(frame, permit, t, form, to),
        None => unreachable!(),
    }
}

// This tile doesn't have this form, if it isn't permitted there.
fn add_unless_permitted(
    frame: &Frame,
    permit: &Permit,
    t: u32,
    form: Form,
    to: &mut Writer,
) -> Result<(), NoMemory>
    requires vars { IsFor frame.now to.old }
    requires tile { IsTile frame.now.ratio t }
    ensures { IfOk result (λ _. Writes frame.now to.old to.new
        (λ N r. if not (test_of permit.now r t form) then bars N r t form else [])) }
{
    if permit.allows(frame.ratio, t, form) {
        return Ok(());
    }
    add_bars(frame, t, form, to)
}

// This tile doesn't have this form.
fn add_bars(frame: &Frame, t: u32, form: Form, to: &mut Writer) -> Result<(), NoMemory>
    requires vars { IsFor frame.now to.old }
    requires tile { IsTile frame.now.ratio t }
    ensures { IfOk result (λ _. Writes frame.now to.old to.new (λ N r. bars N r t form)) }
{
    let upper = side_of(form.upper());
    let lower = side_of(form.lower());
    let spot = Spot {
        tile: t,
        upper,
        lower,
    };
    match form.node() {
        Some(kind) => add_bars_nodes(frame, spot, kind, to),
        None => add_bars_free(frame, spot, form, to),
    }
}

// The one side that is used, where one is.
fn side_of(sides: Sides) -> Side
    ensures { result ≡ used_side sides }
{
    if sides.left { Side::Left } else { Side::Right }
}

// The number of a kind.
fn rank_of(kind: Kind) -> u8
    ensures { result ≡ kind_number kind }
{
    match kind {
        Kind::Input => 0,
        Kind::Output => 1,
        Kind::Not => 2,
        Kind::Fan => 3,
        Kind::And => 4,
        Kind::Or => 5,
        Kind::Nand => 6,
        Kind::Nor => 7,
        Kind::Xor => 8,
        Kind::Xnor => 9,
    }
}

// No node of this kind stands on the tile with the form of these sides.
fn add_bars_nodes(frame: &Frame, spot: Spot, kind: Kind, to: &mut Writer) -> Result<(), NoMemory>
    requires vars { IsFor frame.now to.old }
    requires tile { IsTile frame.now.ratio spot.tile }
    ensures { IfOk result (λ _. Writes frame.now to.old to.new
        (λ N r. bars_nodes N r spot.tile spot.upper spot.lower kind)) }
{
    for v in 0..frame.node_count() {
        add_bars_if(frame, spot, kind, v, to)?;
    }
    Ok(())
}

// This node, if it is of this kind, doesn't stand on the tile with the form of these sides.
fn add_bars_if(
    frame: &Frame,
    spot: Spot,
    kind: Kind,
    v: u32,
    to: &mut Writer,
) -> Result<(), NoMemory>
    requires vars { IsFor frame.now to.old }
    requires tile { IsTile frame.now.ratio spot.tile }
    requires node { v < length frame.now.net.now.nodes }
    ensures { IfOk result (λ _. Writes frame.now to.old to.new
        (λ N r. if is_of_kind N r kind v
        then bars_node N r spot.tile spot.upper spot.lower kind v else [])) }
{
    let node = frame.net.node(v);
    if rank_of(node.kind) != rank_of(kind) {
        return Ok(());
    }
    add_bars_node(frame, spot, kind, v, to)
}

// This node doesn't stand on the tile with the form of this kind and of these sides.
fn add_bars_node(
    frame: &Frame,
    spot: Spot,
    kind: Kind,
    v: u32,
    to: &mut Writer,
) -> Result<(), NoMemory>
    requires vars { IsFor frame.now to.old }
    requires tile { IsTile frame.now.ratio spot.tile }
    requires node { v < length frame.now.net.now.nodes }
    ensures { IfOk result (λ _. Writes frame.now to.old to.new
        (λ N r. bars_node N r spot.tile spot.upper spot.lower kind v)) }
{
    match kind {
        Kind::Output | Kind::Fan => add_off_above(frame, spot, v, to),
        Kind::Not => add_off_both(frame, spot, v, to),
        _ => add_off_below(frame, spot, v, to),
    }
}

// The node isn't on the tile where the upper side is used, if something can enter there.
fn add_off_above(frame: &Frame, spot: Spot, v: u32, to: &mut Writer) -> Result<(), NoMemory>
    requires vars { IsFor frame.now to.old }
    requires tile { IsTile frame.now.ratio spot.tile }
    requires node { v < length frame.now.net.now.nodes }
    ensures { IfOk result (λ _. Writes frame.now to.old to.new
        (λ N r. bars_above N r spot.tile spot.upper v)) }
{
    let Some(above) = entering(frame.ratio, spot.tile, spot.upper) else {
        return Ok(());
    };
    let place = frame.isnt(Variable::NodeOn(v, spot.tile));
    let unused = frame.isnt(Variable::Used(above));
    to.add(&[place, unused])
}

// The node isn't on the tile where the lower side is used.
fn add_off_below(frame: &Frame, spot: Spot, v: u32, to: &mut Writer) -> Result<(), NoMemory>
    requires vars { IsFor frame.now to.old }
    requires tile { IsTile frame.now.ratio spot.tile }
    requires node { v < length frame.now.net.now.nodes }
    ensures { IfOk result (λ _. Writes frame.now to.old to.new
        (λ N r. bars_below N r spot.tile spot.lower v)) }
{
    let below = border(spot.tile, spot.lower);
    let place = frame.isnt(Variable::NodeOn(v, spot.tile));
    let unused = frame.isnt(Variable::Used(below));
    to.add(&[place, unused])
}

// The node isn't on the tile where both sides are used, if something can enter on the upper one.
fn add_off_both(frame: &Frame, spot: Spot, v: u32, to: &mut Writer) -> Result<(), NoMemory>
    requires vars { IsFor frame.now to.old }
    requires tile { IsTile frame.now.ratio spot.tile }
    requires node { v < length frame.now.net.now.nodes }
    ensures { IfOk result (λ _. Writes frame.now to.old to.new
        (λ N r. bars_both N r spot.tile spot.upper spot.lower v)) }
{
    let Some(above) = entering(frame.ratio, spot.tile, spot.upper) else {
        return Ok(());
    };
    let below = border(spot.tile, spot.lower);
    let place = frame.isnt(Variable::NodeOn(v, spot.tile));
    let unused_above = frame.isnt(Variable::Used(above));
    let unused_below = frame.isnt(Variable::Used(below));
    to.add(&[place, unused_above, unused_below])
}

// A tile that holds no node doesn't have this wire, double or cross.
fn add_bars_free(frame: &Frame, spot: Spot, form: Form, to: &mut Writer) -> Result<(), NoMemory>
    requires vars { IsFor frame.now to.old }
    requires tile { IsTile frame.now.ratio spot.tile }
    requires free { form_node form ≡ None }
    requires upper { spot.upper ≡ used_side (form_upper form) }
    requires lower { spot.lower ≡ used_side (form_lower form) }
    ensures { IfOk result (λ _. Writes frame.now to.old to.new (λ N r. bars N r spot.tile form)) }
{
    let _number = form.number();
    if is_both(form.upper()) {
        add_bars_two(frame, spot.tile, way_of(form), to)
    } else {
        add_bars_wire(frame, spot, to)
    }
}

// Whether both sides are used.
fn is_both(sides: Sides) -> bool
    ensures { result ≡ (sides.left && sides.right) }
{
    sides.left && sides.right
}

// The lower side to which the form leads what enters on the upper left.
fn way_of(form: Form) -> Side
    requires { form_node form ≡ None }
    ensures { result ≡ (if form_value form true false Left then Left else Right) }
{
    let (straight, _) = form.apply(true, false);
    if straight { Side::Left } else { Side::Right }
}

// Where both upper borders are used, no edge goes from the upper left to this lower side.
fn add_bars_two(frame: &Frame, t: u32, lower: Side, to: &mut Writer) -> Result<(), NoMemory>
    requires vars { IsFor frame.now to.old }
    requires tile { IsTile frame.now.ratio t }
    ensures { IfOk result (λ _. Writes frame.now to.old to.new (λ N r. bars_two N r t lower)) }
{
    let Some(left) = entering(frame.ratio, t, Side::Left) else {
        return Ok(());
    };
    let Some(right) = entering(frame.ratio, t, Side::Right) else {
        return Ok(());
    };
    add_no_way(frame, left, right, border(t, lower), to)
}

// Where the border beside is used, no edge is on both of two borders, from above and below a tile.
fn add_no_way(
    frame: &Frame,
    above: u32,
    beside: u32,
    below: u32,
    to: &mut Writer,
) -> Result<(), NoMemory>
    requires vars { IsFor frame.now to.old }
    requires above { above < below }
    requires beside { beside < border_count frame.now.ratio }
    requires below { below < border_count frame.now.ratio }
    ensures { IfOk result (λ _. Writes frame.now to.old to.new
        (λ N r. bars_way N r above beside below)) }
{
    let unused = frame.isnt(Variable::Used(beside));
    for e in 0..frame.edge_count() {
        let off_above = frame.isnt(Variable::EdgeOn(e, above));
        let off_below = frame.isnt(Variable::EdgeOn(e, below));
        to.add(&[unused, off_above, off_below])?;
    }
    Ok(())
}

// A tile that isn't taken has no wire with these sides, if something can enter on the upper one.
fn add_bars_wire(frame: &Frame, spot: Spot, to: &mut Writer) -> Result<(), NoMemory>
    requires vars { IsFor frame.now to.old }
    requires tile { IsTile frame.now.ratio spot.tile }
    ensures { IfOk result (λ _. Writes frame.now to.old to.new
        (λ N r. bars_wire N r spot.tile spot.upper spot.lower)) }
{
    let Some(_) = entering(frame.ratio, spot.tile, spot.upper) else {
        return Ok(());
    };
    let above_left = entering(frame.ratio, spot.tile, Side::Left);
    let above_right = entering(frame.ratio, spot.tile, Side::Right);
    let below_left = border(spot.tile, Side::Left);
    let below_right = border(spot.tile, Side::Right);
    let upper = is_left(spot.upper);
    let lower = is_left(spot.lower);
    let taken = frame.is(Variable::Taken(spot.tile));
    to.list.clear();
    to.list.push(taken)?;
    add_unlike(frame, above_left, upper, &mut to.list)?;
    add_unlike(frame, above_right, !upper, &mut to.list)?;
    add_unlike(frame, Some(below_left), lower, &mut to.list)?;
    add_unlike(frame, Some(below_right), !lower, &mut to.list)?;
    to.add_list()
}

// Whether it is the left one.
fn is_left(side: Side) -> bool
    ensures { result ≡ on_side true false side }
{
    match side {
        Side::Left => true,
        Side::Right => false,
    }
}

// Puts the literal that this border, if there is one, isn't used as told behind the others.
fn add_unlike(
    frame: &Frame,
    b: Option<u32>,
    used: bool,
    list: &mut Vec<Lit>,
) -> Result<(), NoMemory>
    requires { IfSome b (λ n. n < border_count frame.now.ratio) }
    ensures { IfOk result (λ _. list.new.items ≡ list.old.items
        ++ used_unlike frame.now.net.now frame.now.ratio b used) }
{
    let Some(b) = b else {
        return Ok(());
    };
    list.push(unlike(frame, b, used))?;
    Ok(())
}

// The literal that the border isn't used as told.
fn unlike(frame: &Frame, b: u32, used: bool) -> Lit
    requires { b < border_count frame.now.ratio }
    ensures { result ≡ literal_for frame.now.net.now frame.now.ratio (not used) (Used b) }
{
    if used {
        frame.isnt(Variable::Used(b))
    } else {
        frame.is(Variable::Used(b))
    }
}
