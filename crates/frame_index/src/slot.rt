//! The header of a slot.
ghost use Rattle.std.specs.Prelude.{◌≡◌, None, Some, IfOk, IfErr, length, min};
ghost use Rattle.vdif_frame.specs.{Header.{fields_of, AreInRange}, Agreement.{first_field}};

use vdif_frame::{Field, Header, Shape, agrees};

/// The header at the front of a slot, of which `head` has the first bytes, 32 or all; or the first field in
/// which it differs from the shape. A slot that is too short for its header is one of a legacy shape without
/// the legacy bit.
pub fn slot_header(shape: &Shape, head: &[u8]) -> Result<Header, Field>
    requires { length head.now ≡ min 32 shape.now.frame_bytes }
    ensures fields { IfOk result (λ h. h ≡ fields_of head.now) }
    ensures range { IfOk result AreInRange }
    ensures agrees { IfOk result (λ _. first_field (fields_of head.now) shape.now ≡ None) }
    ensures differs { IfErr result (λ field. first_field (fields_of head.now) shape.now ≡ Some field) }
{
    let _bounds = shape.head_bytes();
    match Header::read(head) {
        None => Err(Field::Legacy),
        Some(header) => match agrees(&header, shape) {
            Ok(()) => Ok(header),
            Err(field) => Err(field),
        },
    }
}
