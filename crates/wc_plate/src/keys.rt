ghost use Rattle.std.specs.Prelude.{◌≡◌, IfErr, IfOk, IfSome, MatchOption, Some, true, bytes_eq};
ghost use Rattle.std.specs.List.{list_any};
ghost use Rattle.toml.specs.View.{table_view};
ghost use Rattle.wc_model.specs.Instrument.PlateTable as plate;
ghost use Rattle.wc_plate.specs.KeyFaults.{BlamesNumber, BlamesText, HasOther, Lacks, ReadsEach, ReadsKeys};
ghost use Rattle.wc_plate.specs.TomlTable.{entries_of};

use crate::broken::BrokenRule;
use toml::Table;

/// The values of the seven keys, before they are checked.
#[derive(Drop)]
pub(crate) struct KeyValues<'t> {
    pub(crate) unit: &'t str,
    pub(crate) decimals: i64,
    pub(crate) max: i64,
    pub(crate) e: i64,
    pub(crate) zero_counts: i64,
    pub(crate) span_counts: i64,
    pub(crate) window: i64,
}

/// Whether this is one of the seven keys.
fn is_plate_key(key: &str) -> bool
    ensures { result ≡ list_any (bytes_eq key.now) plate.plate_keys }
{
    matches!(
        key,
        "unit" | "decimals" | "max" | "e" | "zero_counts" | "span_counts" | "window"
    )
}

/// The first key of the table besides the seven.
#[tactic(auto, using(crate::proofs::Lookups::same_keys, crate::proofs::Lookups::keys_there))]
fn other_key(table: &Table) -> Option<&str>
    ensures { MatchOption result
        (plate.has_no_other_key (entries_of (table_view table.now)) ≡ true)
        (λ key. HasOther (entries_of (table_view table.now)) key.now) }
{
    for key in table.keys() {
        if !is_plate_key(key.as_str()) {
            return Some(key.as_str());
        }
    }
    None
}

/// The text of a key.
fn text_at<'t>(table: &'t Table, key: &'static str) -> Result<&'t str, BrokenRule<'static>>
    ensures text { IfOk result
        (λ text. plate.text_at (entries_of (table_view table.now)) key.now ≡ Some text.now) }
    ensures fault { IfErr result (BlamesText (entries_of (table_view table.now)) key.now) }
{
    let value = table.get(key).ok_or(BrokenRule::MissingKey { key })?;
    value.as_str().ok_or(BrokenRule::WrongKind { key })
}

/// The whole number of a key.
fn number_at(table: &Table, key: &'static str) -> Result<i64, BrokenRule<'static>>
    ensures number { IfOk result
        (λ number. plate.number_at (entries_of (table_view table.now)) key.now ≡ Some number) }
    ensures fault { IfErr result (BlamesNumber (entries_of (table_view table.now)) key.now) }
{
    let value = table.get(key).ok_or(BrokenRule::MissingKey { key })?;
    value.as_integer().ok_or(BrokenRule::WrongKind { key })
}

/// The values of the seven keys, or the first of them that is missing or not of its kind.
fn each_key(table: &Table) -> Result<KeyValues<'_>, BrokenRule<'static>>
    ensures { ReadsEach (entries_of (table_view table.now)) result }
{
    Ok(KeyValues {
        unit: text_at(table, "unit")?,
        decimals: number_at(table, "decimals")?,
        max: number_at(table, "max")?,
        e: number_at(table, "e")?,
        zero_counts: number_at(table, "zero_counts")?,
        span_counts: number_at(table, "span_counts")?,
        window: number_at(table, "window")?,
    })
}

/// One of the seven keys that is missing, if none before it is of a wrong kind.
fn missing_key(table: &Table) -> Option<&'static str>
    ensures { IfSome result (λ key. Lacks (entries_of (table_view table.now)) key.now) }
{
    match each_key(table) {
        Err(BrokenRule::MissingKey { key }) => Some(key),
        _ => None,
    }
}

/// The values of the seven keys, if each is there in its kind and there is no other.
pub(crate) fn written_in(table: &Table) -> Result<KeyValues<'_>, BrokenRule<'_>>
    ensures { ReadsKeys (entries_of (table_view table.now)) result }
{
    match other_key(table) {
        Some(key) => Err(BrokenRule::UnknownKey {
            key,
            missing: missing_key(table),
        }),
        None => Ok(each_key(table)?),
    }
}
