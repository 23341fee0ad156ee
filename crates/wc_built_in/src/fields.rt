ghost use Rattle.std.specs.Prelude.{◌≡◌, map, option_and_then, option_map};
ghost use Rattle.std.specs.List.{position_from};
ghost use Rattle.wc_model.specs.Definitions.{member_named, same_name, standard_members, name_of, standard_fields};
ghost use Rattle.wc_built_in.specs.Fields.{field_content, member_seen, named_field, named_fields, named_member, named_seen};

use wc_model::{Section, SlotKind, StandardBlock, is_word};

/// A field of a standard function block (IEC 61131-3:2003, 2.5.2.3).
pub struct StandardField {
    /// Its name, in small letters.
    pub name: &'static [u8],
    /// Where a call finds it: a field that is neither an input nor an output has no name in texts.
    pub section: Section,
    /// The kind of its slot.
    pub slot: SlotKind,
}

/// Fields, one a line: name, section, kind of slot.
macro_rules! fields {
    ($($name:literal $section:ident $slot:ident;)*) => {
        &[$(StandardField {
            name: $name,
            section: Section::$section,
            slot: SlotKind::$slot,
        }),*]
    };
}

/// The fields of a standard function block, in the order of their places. All hold 0 at first.
pub fn standard_fields(block: StandardBlock) -> &'static [StandardField]
    ensures fields { map field_content result.now ≡ standard_fields block }
    ensures members { map named_field (named_fields result.now)
        ≡ map named_member (standard_members block) }
{
    match block {
        StandardBlock::RTrig => fields! {
            b"clk" Input Bool;
            b"q" Output Bool;
            b"m" Own Bool;
        },
        StandardBlock::Sr => fields! {
            b"s1" Input Bool;
            b"r" Input Bool;
            b"q1" Output Bool;
        },
        StandardBlock::Rs => fields! {
            b"s" Input Bool;
            b"r1" Input Bool;
            b"q1" Output Bool;
        },
        StandardBlock::Ctu => fields! {
            b"cu" Input Bool;
            b"r" Input Bool;
            b"pv" Input Dint;
            b"q" Output Bool;
            b"cv" Output Dint;
            b"m" Own Bool;
        },
        StandardBlock::Ton => fields! {
            b"in" Input Bool;
            b"pt" Input Time;
            b"q" Output Bool;
            b"et" Output Time;
            b"run" Own Bool;
            b"start" Own Moment;
        },
        StandardBlock::Tof | StandardBlock::Tp => fields! {
            b"in" Input Bool;
            b"pt" Input Time;
            b"q" Output Bool;
            b"et" Output Time;
            b"phase" Own Phase;
            b"start" Own Moment;
        },
    }
}

/// The number of the field of that name among these.
fn field_number(fields: &[StandardField], name: &[u8]) -> Option<usize>
    ensures { result
        ≡ position_from (λ f. same_name (name_of f.name.now) (name_of name.now)) 0 fields.now }
{
    fields.iter().position(|field| is_word(field.name, name))
}

/// A field with its number among those of its block.
#[derive(Clone, Copy)]
pub struct NumberedField {
    pub number: u16,
    pub field: &'static StandardField,
}

/// The field of that name of a standard function block.
pub fn field_named(block: StandardBlock, name: &[u8]) -> Option<NumberedField>
    ensures number { option_map (λ f. f.number) result
        ≡ position_from (λ f. same_name f.0 (name_of name.now)) 0 (standard_fields block) }
    ensures member { option_and_then (λ f. named_seen f.field.now) result
        ≡ option_map member_seen (member_named (standard_members block) (name_of name.now)) }
{
    let fields = standard_fields(block);
    let number = field_number(fields, name)?;
    let field = fields.get(number)?;
    Some(NumberedField {
        number: number as u16,
        field,
    })
}
