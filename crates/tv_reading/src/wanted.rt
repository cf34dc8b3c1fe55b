//! The fields that are wanted of a document.

ghost use Rattle.std.specs.Prelude.{◌≡◌, length};
ghost use Rattle.tv_reading.specs.ChosenFields.{is_among};
ghost use Rattle.tv_reading.specs.Wanted.{IsTable};

use tv_value::field::Field;

// A field of a number below this is looked up in a table.
const TABLE: usize = 64;

// Whether a field is among these, by looking through them.
pub(crate) fn is_among(fields: &[Field], field: u32) -> bool
    ensures { result ≡ is_among fields.now field }
{
    fields.iter().any(|chosen| chosen.field_id() == field)
}

// Which numbers below 64 the fields have.
fn table_of(fields: &[Field]) -> [bool; TABLE]
    ensures len { length result ≡ 64 }
    ensures table { IsTable fields.now result }
{
    let mut table = [false; TABLE];
    for field in fields {
        let number = field.field_id() as usize;
        if number < TABLE {
            table[number] = true;
        }
    }
    table
}

// Fields that are looked for often: those with low numbers by a table, so that it makes no difference how many they are.
#[derive(Drop)]
pub(crate) struct WantedFields<'f> {
    fields: &'f [Field],
    table: [bool; TABLE],
    ghost len: { length table ≡ 64 },
    ghost is_table: { IsTable fields.now table },
}

impl<'f> WantedFields<'f> {
    // These fields.
    pub(crate) fn new(fields: &'f [Field]) -> WantedFields<'f>
        ensures { result.fields.now ≡ fields.now }
    {
        WantedFields {
            fields,
            table: table_of(fields),
        }
    }

    // Whether a field is among these.
    #[inline(always)]
    pub(crate) fn has(&self, field: u32) -> bool
        ensures { result ≡ is_among self.now.fields.now field }
    {
        match self.table.get(field as usize) {
            Some(has) => *has,
            None => is_among(self.fields, field),
        }
    }
}
