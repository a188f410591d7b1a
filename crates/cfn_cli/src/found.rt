//! What clap found of a command's arguments: texts, numbers within their limits, flags, and the format of the file.

ghost use Rattle.std.specs.Prelude.{◌≡◌, ◌≤◌, Some, None, IfErr, IfOk, IfSome};
ghost use Rattle.clap.specs.Words.{first_of, found_of, rows_of};
ghost use Rattle.cfn_cli.specs.Arguments.{flag_of, format_in, format_of, number_in, number_of, optional_in, optional_of};

use crate::fault::CliFault;
use crate::format::Format;
use clap::ArgMatches;

/// The most workers that a command may ask for.
pub(crate) const MOST_WORKERS: u64 = 64;

/// The format of the file.
pub(crate) fn format(found: &ArgMatches<'_>) -> Format
    ensures { result ≡ format_of (rows_of (found_of found.now)) }
{
    match found.get_str("wcnf") {
        Some(flag) => format_flagged(flag),
        None => Format::Wcsp,
    }
}

/// The format of a file, by the value of the flag.
fn format_flagged(flag: &str) -> Format
    ensures { result ≡ format_in (Some flag.now) }
{
    if flag == "true" {
        Format::Wcnf
    } else {
        Format::Wcsp
    }
}

/// Whether a flag is set.
pub(crate) fn flag(found: &ArgMatches<'_>, id: &str) -> bool
    ensures { result ≡ flag_of id.now (rows_of (found_of found.now)) }
{
    match found.get_str(id) {
        Some(text) => text == "true",
        None => false,
    }
}

/// The text of an argument.
pub(crate) fn text<'a>(found: &ArgMatches<'a>, id: &str) -> Result<&'a str, CliFault>
    ensures text { IfOk result (λ t. first_of id.now (rows_of (found_of found.now)) ≡ Some t.now) }
    ensures missing { IfErr result (λ fault. first_of id.now (rows_of (found_of found.now)) ≡ None) }
{
    match found.get_str(id) {
        Some(text) => Ok(text),
        None => Err(CliFault::Usage),
    }
}

/// The number of an argument, from `least` to `most`.
pub(crate) fn number(
    found: &ArgMatches<'_>,
    id: &str,
    least: u64,
    most: u64,
) -> Result<u64, CliFault>
    ensures number { IfOk result (λ n. number_of id.now least most (rows_of (found_of found.now)) ≡ Some n) }
    ensures none { IfErr result (λ fault. number_of id.now least most (rows_of (found_of found.now)) ≡ None) }
    ensures within { IfOk result (λ n. (least ≤ n) × (n ≤ most)) }
{
    match number_in(text(found, id)?, least, most) {
        Some(number) => Ok(number),
        None => Err(CliFault::Usage),
    }
}

/// The number of an argument, from `least` to `most`, or none where the words leave it out.
pub(crate) fn optional(
    found: &ArgMatches<'_>,
    id: &str,
    least: u64,
    most: u64,
) -> Result<Option<u64>, CliFault>
    ensures number { IfOk result (λ n. optional_of id.now least most (rows_of (found_of found.now)) ≡ Some n) }
    ensures none { IfErr result (λ fault. optional_of id.now least most (rows_of (found_of found.now)) ≡ None) }
    ensures within { IfOk result (λ o. IfSome o (λ n. (least ≤ n) × (n ≤ most))) }
{
    match found.get_str(id) {
        Some(text) => given(text, least, most),
        None => Ok(None),
    }
}

/// The number of an argument that is given.
fn given(text: &str, least: u64, most: u64) -> Result<Option<u64>, CliFault>
    ensures number { IfOk result (λ n. optional_in least most (Some text.now) ≡ Some n) }
    ensures none { IfErr result (λ fault. optional_in least most (Some text.now) ≡ None) }
    ensures within { IfOk result (λ o. IfSome o (λ n. (least ≤ n) × (n ≤ most))) }
{
    match number_in(text, least, most) {
        Some(number) => Ok(Some(number)),
        None => Err(CliFault::Usage),
    }
}

/// The number that a text is, if it is one from `least` to `most`.
pub(crate) fn number_in(text: &str, least: u64, most: u64) -> Option<u64>
    ensures number { result ≡ number_in least most text.now }
    ensures within { IfSome result (λ n. (least ≤ n) × (n ≤ most)) }
{
    match text.parse::<u64>() {
        Ok(number) if least <= number && number <= most => Some(number),
        _ => None,
    }
}
