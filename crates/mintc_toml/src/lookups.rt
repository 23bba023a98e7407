//! What a table of a document holds at a key.
ghost use Rattle.std.specs.Prelude.{[], ◌≡◌, ◌<◌, ◌^◌, length, map, is_some, Some, None, MatchOption, IfOk};
ghost use Rattle.toml.specs.Data.{get_member};
ghost use Rattle.toml.specs.View.{view, table_view, array_view};
ghost use Rattle.mintc_toml.specs.Lookups.{texts, are_texts, texts_of, are_texts_of, text_in, is_text_in, texts_in};
ghost use Rattle.mintc_toml.specs.Lookups.{are_texts_in, integer_in, is_integer_in, flag_in, is_flag_in, tables};
ghost use Rattle.mintc_toml.specs.Lookups.{are_tables, tables_of, are_tables_of, tables_in, are_tables_in};

use mintc_text::{Name, Names, OutOfMemory};
use std::alloc::Global;
use toml::value::Array;
use toml::{Table, Value};

/// The value at a key.
pub fn member<'a>(table: &'a Table, key: &str) -> Option<&'a Value>
    ensures { MatchOption result (get_member key.now (table_view table.now) ≡ None)
        (λ v. get_member key.now (table_view table.now) ≡ Some (view v.now)) }
{
    table.get(key)
}

/// Whether a key is there.
pub fn has(table: &Table, key: &str) -> bool
    ensures { result ≡ is_some (get_member key.now (table_view table.now)) }
{
    member(table, key).is_some()
}

/// The whole number at a key, or a default.
pub fn integer(table: &Table, key: &str, default: i64) -> i64
    ensures { result ≡ integer_in default (get_member key.now (table_view table.now)) }
{
    match member(table, key) {
        Some(value) => value.as_integer().unwrap_or(default),
        None => default,
    }
}

/// Whether a key holds a whole number, or may be absent.
pub fn is_integer(table: &Table, key: &str, optional: bool) -> bool
    ensures { result ≡ is_integer_in optional (get_member key.now (table_view table.now)) }
{
    match member(table, key) {
        Some(value) => value.is_integer(),
        None => optional,
    }
}

/// The flag at a key, or a default.
pub fn flag(table: &Table, key: &str, default: bool) -> bool
    ensures { result ≡ flag_in default (get_member key.now (table_view table.now)) }
{
    match member(table, key) {
        Some(value) => value.as_bool().unwrap_or(default),
        None => default,
    }
}

/// Whether a key is absent or holds a flag.
pub fn is_flag(table: &Table, key: &str) -> bool
    ensures { result ≡ is_flag_in (get_member key.now (table_view table.now)) }
{
    match member(table, key) {
        Some(value) => value.is_bool(),
        None => true,
    }
}

/// The text at a key, or a default.
pub fn text<'a>(table: &'a Table, key: &str, default: &'a str) -> &'a str
    ensures { result.now ≡ text_in default.now (get_member key.now (table_view table.now)) }
{
    match member(table, key) {
        Some(value) => value.as_str().unwrap_or(default),
        None => default,
    }
}

/// Whether a key holds a text, or may be absent.
pub fn is_text(table: &Table, key: &str, optional: bool) -> bool
    ensures { result ≡ is_text_in optional (get_member key.now (table_view table.now)) }
{
    match member(table, key) {
        Some(value) => value.is_str(),
        None => optional,
    }
}

/// The text at a key as a name, empty where there is none.
pub fn name(alloc: Global, table: &Table, key: &str) -> Result<Name, OutOfMemory>
    ensures { IfOk result (λ n. n ≡ text_in [] (get_member key.now (table_view table.now))) }
{
    Name::new(alloc, text(table, key, "").as_bytes())
}

/// Whether all items are texts.
fn are_all_texts(items: &Array) -> bool
    ensures { result ≡ are_texts (array_view items.now) }
{
    for item in items {
        if !item.is_str() {
            return false;
        }
    }
    true
}

/// The texts among some items, as names.
fn names_among(alloc: Global, items: &Array) -> Result<Names, OutOfMemory>
    ensures { IfOk result (λ n. n ≡ texts (array_view items.now)) }
{
    let mut names = Vec::new(alloc);
    for item in items {
        if let Some(text) = item.as_str() {
            names.push(Name::new(alloc, text.as_bytes())?)?;
        }
    }
    Ok(Names::new(names))
}

/// Whether a key holds an array of texts, or may be absent.
pub fn are_names(table: &Table, key: &str, optional: bool) -> bool
    ensures { result ≡ are_texts_in optional (get_member key.now (table_view table.now)) }
{
    match member(table, key) {
        Some(value) => match value.as_array() {
            Some(items) => are_all_texts(items),
            None => false,
        },
        None => optional,
    }
}

/// The texts of the array at a key as names, none where there is none.
pub fn names(alloc: Global, table: &Table, key: &str) -> Result<Names, OutOfMemory>
    ensures { IfOk result (λ n. n ≡ texts_in (get_member key.now (table_view table.now))) }
{
    match member(table, key) {
        Some(value) => match value.as_array() {
            Some(items) => names_among(alloc, items),
            None => Ok(Names::new(Vec::new(alloc))),
        },
        None => Ok(Names::new(Vec::new(alloc))),
    }
}

/// Whether all items are tables.
fn are_all_tables(items: &Array) -> bool
    ensures { result ≡ are_tables (array_view items.now) }
{
    for item in items {
        if !item.is_table() {
            return false;
        }
    }
    true
}

/// Whether a key is absent or holds an array of tables.
pub fn are_tables(table: &Table, key: &str) -> bool
    ensures { result ≡ are_tables_in (get_member key.now (table_view table.now)) }
{
    match member(table, key) {
        Some(value) => match value.as_array() {
            Some(items) => are_all_tables(items),
            None => false,
        },
        None => true,
    }
}

/// The tables among some items.
fn tables_among(alloc: Global, items: &Array) -> Result<Vec<&Table>, OutOfMemory>
    ensures { IfOk result (λ v. map (λ t. table_view t.now) v.items ≡ tables (array_view items.now)) }
{
    let mut found = Vec::new(alloc);
    for item in items {
        if let Some(table) = item.as_table() {
            found.push(table)?;
        }
    }
    Ok(found)
}

/// The tables of the array at a key, none where there is none.
pub fn tables<'a>(alloc: Global, table: &'a Table, key: &str) -> Result<Vec<&'a Table>, OutOfMemory>
    ensures { IfOk result (λ v. map (λ t. table_view t.now) v.items
        ≡ tables_in (get_member key.now (table_view table.now))) }
{
    match member(table, key) {
        Some(value) => match value.as_array() {
            Some(items) => tables_among(alloc, items),
            None => Ok(Vec::new(alloc)),
        },
        None => Ok(Vec::new(alloc)),
    }
}
