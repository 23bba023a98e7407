//! What a document says without the keys of senses.
ghost use Rattle.std.specs.Prelude.{◌≡◌};
ghost use Rattle.toml.specs.View.{view, table_view};
ghost use Rattle.mintcx_sense_keys.specs.Plain.{plain_table, plain_entry, plain_entries, plain_document, each_value};

use mintc_toml::text;
use std::mem;
use toml::{Table, Value};

/// Takes the two keys out of a table that isn't that of a clock cell.
fn strip_table(table: &mut Table)
    ensures { table_view table.new ≡ plain_table (table_view table.old) }
{
    if text(table, "kind", "") != "clock" {
        drop(table.remove("positive"));
        drop(table.remove("negative"));
    }
}

/// An entry without the two keys.
fn plain_entry(value: Value) -> Value
    ensures { view result ≡ plain_entry (view value) }
{
    match value {
        Value::Table(mut table) => {
            strip_table(&mut table);
            Value::Table(table)
        }
        other => other,
    }
}

/// Takes the two keys out of an entry.
fn strip_entry(value: &mut Value)
    ensures { view value.new ≡ plain_entry (view value.old) }
{
    let entry = mem::replace(value, Value::Boolean(false));
    *value = plain_entry(entry);
}

/// Takes the two keys out of each entry of a table.
fn strip_entries(entries: &mut Table)
    ensures { table_view entries.new ≡ each_value plain_entry (table_view entries.old) }
{
    entries.retain(|_, entry| {
        strip_entry(entry);
        true
    });
}

/// A table of entries without the two keys of each.
fn plain_entries(value: Value) -> Value
    ensures { view result ≡ plain_entries (view value) }
{
    match value {
        Value::Table(mut entries) => {
            strip_entries(&mut entries);
            Value::Table(entries)
        }
        other => other,
    }
}

/// Takes the two keys out of the entries of a member of a document.
fn strip_member(value: &mut Value)
    ensures { view value.new ≡ plain_entries (view value.old) }
{
    let entries = mem::replace(value, Value::Boolean(false));
    *value = plain_entries(entries);
}

/// Takes the two keys out of the entries of a document.
pub(crate) fn strip_document(document: &mut Table)
    ensures { table_view document.new ≡ plain_document (table_view document.old) }
{
    document.retain(|_, value| {
        strip_member(value);
        true
    });
}
