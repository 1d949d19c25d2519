// Options from a text.
ghost use Rattle.std.specs.Prelude.{◌≡◌, ◌≢◌, ◌⊎◌, IfErr, IfOk, Ok, Err};
ghost use Rattle.toml.specs.Data.{Members};
ghost use Rattle.toml.specs.View.{table_view, view};
ghost use Rattle.luf_conf.specs.Answers.{AreOptions, IsFirstWrong, IsRefused, IsTable, IsWrong, TellsOptions};
ghost use Rattle.luf_conf.specs.inner.Member.{IsWithMember};
ghost use Rattle.luf_conf.specs.declared.error.ConfErr.{ConfErr as Cause};
ghost use Rattle.luf_conf.specs.declared.settings.Options.{Options as Settings};

use crate::error::ConfErr;
use crate::keys::key_of;
use crate::settings::Options;
use luf_text::Bytes;
use std::alloc::Global;
use toml::{Table, Value};

/// The options that a text of TOML tells: the values of its keys, and the usual ones for those that it has not.
///
/// # Errors
///
/// `NotToml`, where the text is not UTF-8 or no TOML; else `UnknownKey` or `BadValue` of the first key, in the order of
/// bytes, that is not known or has a value that it may not have; `Memory`.
pub fn options(alloc: Global, text: &[u8]) -> Result<Options, ConfErr>
    ensures ok { IfOk result (TellsOptions text.now) }
    ensures complete { (o : Settings) → TellsOptions text.now o → (result ≡ Ok o) ⊎ (result ≡ Err ConfErr.Memory) }
    ensures refused { IfErr result (λ e. e ≢ ConfErr.Memory → IsRefused text.now e) }
    ensures exact { (e : Cause) → IsRefused text.now e → (result ≡ Err e) ⊎ (result ≡ Err ConfErr.Memory) }
{
    match table_of(alloc, text) {
        Ok(table) => options_of(alloc, &table),
        Err(e) => Err(e),
    }
}

/// The table that a text is.
fn table_of(alloc: Global, text: &[u8]) -> Result<Table, ConfErr>
    ensures ok { IfOk result (λ table. IsTable text.now (table_view table)) }
    ensures refused { IfErr result (λ e. e ≢ ConfErr.Memory → IsRefused text.now e) }
{
    match toml::table_from_slice(alloc, text) {
        Ok(table) => Ok(table),
        Err(e) => {
            if e.is_memory() {
                Err(ConfErr::Memory)
            } else {
                Err(ConfErr::NotToml)
            }
        }
    }
}

/// The options that a table tells. Its members come in the order of their keys, so the first that is refused is told.
fn options_of(alloc: Global, table: &Table) -> Result<Options, ConfErr>
    ensures ok { IfOk result (AreOptions (table_view table.now)) }
    ensures refused { IfErr result (λ e. e ≢ ConfErr.Memory → IsFirstWrong (table_view table.now) e) }
{
    let mut options = Options::usual();
    for (name, value) in table.iter() {
        match with_member(alloc, options, name.as_bytes(), value) {
            Ok(more) => options = more,
            Err(e) => return Err(e),
        }
    }
    Ok(options)
}

/// The options with one more member of a table.
fn with_member(
    alloc: Global,
    options: Options,
    name: &[u8],
    value: &Value,
) -> Result<Options, ConfErr>
    ensures ok { IfOk result (IsWithMember name.now (view value.now) options) }
    ensures refused { IfErr result (λ e. e ≢ ConfErr.Memory → IsWrong name.now (view value.now) e) }
{
    let Some(key) = key_of(name) else {
        return Err(unknown_key(alloc, name));
    };
    match options.with(key, value) {
        Some(more) => Ok(more),
        None => Err(bad_value(alloc, name)),
    }
}

fn unknown_key(alloc: Global, name: &[u8]) -> ConfErr
    ensures { result ≢ ConfErr.Memory → result ≡ ConfErr.UnknownKey name.now }
{
    match Bytes::copy(alloc, name) {
        Ok(name) => ConfErr::UnknownKey(name),
        Err(_) => ConfErr::Memory,
    }
}

fn bad_value(alloc: Global, name: &[u8]) -> ConfErr
    ensures { result ≢ ConfErr.Memory → result ≡ ConfErr.BadValue name.now }
{
    match Bytes::copy(alloc, name) {
        Ok(name) => ConfErr::BadValue(name),
        Err(_) => ConfErr::Memory,
    }
}
