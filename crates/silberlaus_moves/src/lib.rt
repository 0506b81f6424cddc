// A session record moved to the other form, with document 01's numbers and C's struct in place of the result. It stands over
// `record_moving` and `silberlaus_records`.
// Inner: `silberlaus` stands over it. It asks nothing.
#![tactic(auto)]

ghost use Rattle.std.specs.Prelude.{◌≡◌};
ghost use Rattle.record_forms.specs.declared.Form.TheVariants.{One, Two};
ghost use Rattle.record_moving.specs.Moving.{move_answer, move_buffer};
ghost use Rattle.silberlaus_records.specs.Records.{added_given};

use silberlaus_records::SilberlausAdded;

// The entries of a record of form 1 as a record of form 2, and its used length, or 7 or 6.
pub fn to_form_2(bytes: &[u8], out: &mut [u8]) -> SilberlausAdded
    ensures result_value { added_given result ≡ move_answer One Two bytes.now out.old }
    ensures out_after { out.new ≡ move_buffer One Two bytes.now out.old }
{
    SilberlausAdded::from(record_moving::to_form_2(bytes, out))
}

// The entries of a record of form 2 as a record of form 1, and its used length, or 7 or 6.
pub fn to_form_1(bytes: &[u8], out: &mut [u8]) -> SilberlausAdded
    ensures result_value { added_given result ≡ move_answer Two One bytes.now out.old }
    ensures out_after { out.new ≡ move_buffer Two One bytes.now out.old }
{
    SilberlausAdded::from(record_moving::to_form_1(bytes, out))
}
