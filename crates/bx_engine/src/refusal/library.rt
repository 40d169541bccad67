//! The lines of the refusals of a library: a field, a form, or a dot of a form by its number. It promises the text that
//! the definitions name for a fault.
ghost use Rattle.std.specs.Prelude.{◌≡◌, [], ◌∷◌, decimal};
ghost use Rattle.bx_desk.specs.Desk.{CanPut};
ghost use Rattle.bx_desk.specs.Pieces.{target_of, PutsOut};
ghost use Rattle.bx_says.specs.Texts.{spaced};
ghost use Rattle.bx_engine.specs.Said.{refusal_text, library_fault_text, field_text, form_text};

use crate::refusal::{put_memory, put_named, put_refusal};
use bx_desk::{Desk, Failed, Piece};
use bx_forms::Form;
use bx_library::{Field, LibraryFault};
use bx_says::Word;

/// Puts out the line of the refusal of a text that is no library.
pub(crate) fn put_library_fault<D: Desk>(
    fault: &LibraryFault,
    piece: &mut Piece,
    desk: &mut D,
) -> Result<(), Failed>
    requires { CanPut (target_of piece.old) (D.state desk.old) }
    ensures { PutsOut (D.state desk.old) (D.state desk.new) result piece.old piece.new
        (refusal_text (library_fault_text fault.now)) }
{
    match fault {
        LibraryFault::NotJson => put_refusal(b"json", &[], piece, desk),
        LibraryFault::Shape(field) => put_field(b"shape", *field, piece, desk),
        LibraryFault::BadSize(field) => put_field(b"size", *field, piece, desk),
        LibraryFault::UnknownForm(name) => put_named(b"unknown form", name, piece, desk),
        LibraryFault::NoDots(form) => put_form(b"no dots", *form, piece, desk),
        LibraryFault::TooManyDots(form) => put_form(b"many dots", *form, piece, desk),
        LibraryFault::DotOutside(form, k) => put_dot(b"dot outside", *form, *k, piece, desk),
        LibraryFault::SameDot(form, k) => put_dot(b"dot twice", *form, *k, piece, desk),
        LibraryFault::SameDots(f, g) => {
            let words = [Word::Text(form_word(*f)), Word::Text(form_word(*g))];
            put_refusal(b"same dots", &words, piece, desk)
        }
        LibraryFault::NoMemory => put_memory(piece, desk),
    }
}

// A form, as a word.
fn form_word(form: Form) -> &'static [u8]
    ensures { result.now ≡ form_text form }
{
    form.name().as_bytes()
}

// A field of a library, as a word.
fn field_word(field: Field) -> &'static [u8]
    ensures { result.now ≡ field_text field }
{
    match field {
        Field::Name => b"name",
        Field::Width => b"width",
        Field::Height => b"height",
        Field::Forms => b"forms",
        Field::Of(form) => form_word(form),
    }
}

// Puts out the line of a refusal that names a field.
fn put_field<D: Desk>(
    fault: &[u8],
    field: Field,
    piece: &mut Piece,
    desk: &mut D,
) -> Result<(), Failed>
    requires { CanPut (target_of piece.old) (D.state desk.old) }
    ensures { PutsOut (D.state desk.old) (D.state desk.new) result piece.old piece.new
        (refusal_text (spaced fault.now (field_text field ∷ []))) }
{
    put_refusal(fault, &[Word::Text(field_word(field))], piece, desk)
}

// Puts out the line of a refusal that names a form.
fn put_form<D: Desk>(
    fault: &[u8],
    form: Form,
    piece: &mut Piece,
    desk: &mut D,
) -> Result<(), Failed>
    requires { CanPut (target_of piece.old) (D.state desk.old) }
    ensures { PutsOut (D.state desk.old) (D.state desk.new) result piece.old piece.new
        (refusal_text (spaced fault.now (form_text form ∷ []))) }
{
    put_refusal(fault, &[Word::Text(form_word(form))], piece, desk)
}

// Puts out the line of a refusal that names a dot by its form and its number.
fn put_dot<D: Desk>(
    fault: &[u8],
    form: Form,
    k: u32,
    piece: &mut Piece,
    desk: &mut D,
) -> Result<(), Failed>
    requires { CanPut (target_of piece.old) (D.state desk.old) }
    ensures { PutsOut (D.state desk.old) (D.state desk.new) result piece.old piece.new
        (refusal_text (spaced fault.now (form_text form ∷ decimal k ∷ []))) }
{
    let words = [Word::Text(form_word(form)), Word::Number(u64::from(k))];
    put_refusal(fault, &words, piece, desk)
}
