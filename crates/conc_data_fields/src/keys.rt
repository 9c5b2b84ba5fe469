ghost use Rattle.std.specs.Prelude.{◌≡◌, map};
ghost use Rattle.std.specs.List.{list_any};
ghost use Rattle.std.specs.Str.{bytes_eq};
ghost use Rattle.conc_data_fields.specs.Fields as spec;
ghost use Rattle.conc_data_fields.specs.Fields.{only};
ghost use Rattle.toml.specs.View.{table_view};

use conc_types::RefusalKind;
use toml::Table;

fn is_same(a: &str, b: &str) -> bool
    ensures { result ≡ bytes_eq a.now b.now }
{
    a == b
}

fn is_among(keys: &[&str], key: &str) -> bool
    ensures { result ≡ list_any (λ k. bytes_eq key.now k.now) keys.now }
{
    keys.iter().any(|k| is_same(key, *k))
}

fn is_known(keys: &[&str], key: &str) -> bool
    ensures { result ≡ spec.is_known (map (λ k. k.now) keys.now) key.now }
{
    is_among(keys, key)
}

// Whether the table has no key but these.
#[tactic(auto, unfolding(crate::specs::Fields::only))]
fn has_only(keys: &[&str], table: &Table) -> bool
    ensures { result ≡ only (map (λ k. k.now) keys.now) (table_view table.now) }
{
    for (key, _) in table.iter() {
        if !is_known(keys, key.as_str()) {
            return false;
        }
    }
    true
}

/// What is wrong with the keys of a table: `UnknownKey` where it has one that is not among these.
pub fn keys_kind(keys: &[&str], table: &Table) -> Option<RefusalKind>
    ensures { result ≡ spec.keys_kind (map (λ k. k.now) keys.now) (table_view table.now) }
{
    if has_only(keys, table) {
        None
    } else {
        Some(RefusalKind::UnknownKey)
    }
}
