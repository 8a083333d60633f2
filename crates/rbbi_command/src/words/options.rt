//! What the options of a command mean.
ghost use Rattle.std.specs.Prelude.{◌≡◌, IfOk, count_by, filter_map, is_some};
ghost use Rattle.std.specs.List.{list_any};
ghost use Rattle.rbbi_command.specs.Settings as spec;
ghost use Rattle.rbbi_command.specs.Requests.{options_in};

use super::command::Takes;
use super::setting::{FilterKind, Property, Setting};
use crate::Source;
use rbbi_text::Unit;
use std::alloc::{AllocError, Global};

/// The most property files that are allowed.
const MOST_PROPERTIES: usize = 16;

/// What the options of a command mean.
#[derive(Drop)]
pub struct Options {
    /// The files that they name to be read, in order.
    pub files: Vec<Source>,
    /// The property files, in order.
    pub properties: Vec<Property>,
    /// Whether `$dictionary` is a variable like others.
    pub ignored: bool,
    /// Whether the first operand is a table file.
    pub by_table: bool,
    /// The unit of places, numbers and lengths.
    pub unit: Unit,
    /// What the filter file has, if there is one.
    pub filter: Option<FilterKind>,
}

fn are_by_table(settings: &[Setting]) -> bool
    ensures { result ≡ spec.are_by_table settings.now }
{
    settings
        .iter()
        .any(|setting| matches!(setting, Setting::ByTable))
}

fn ignores_dictionary(settings: &[Setting]) -> bool
    ensures { result ≡ list_any spec.is_ignoring settings.now }
{
    settings
        .iter()
        .any(|setting| matches!(setting, Setting::IgnoreDictionary))
}

fn count_properties(settings: &[Setting]) -> usize
    ensures { result ≡ count_by (λ setting. is_some (spec.property_of setting)) settings.now }
{
    settings
        .iter()
        .filter(|setting| matches!(setting, Setting::HandIn(_)))
        .count()
}

fn count_ignoring(settings: &[Setting]) -> usize
    ensures { result ≡ count_by spec.is_ignoring settings.now }
{
    settings
        .iter()
        .filter(|setting| matches!(setting, Setting::IgnoreDictionary))
        .count()
}

fn count_tellings(settings: &[Setting]) -> usize
    ensures { result ≡ count_by spec.is_telling settings.now }
{
    settings
        .iter()
        .filter(|setting| matches!(
            setting,
            Setting::CountIn(_) | Setting::Suppress(_) | Setting::Tailor(_)
        ))
        .count()
}

/// The files that the options name to be read, in order.
fn files_of(alloc: Global, settings: &[Setting]) -> Result<Vec<Source>, AllocError>
    ensures { IfOk result (λ files. files.items ≡ filter_map spec.source_in settings.now) }
{
    let mut files = Vec::new(alloc);
    for setting in settings {
        if let Some(file) = setting.source(alloc)? {
            files.push(file)?;
        }
    }
    Ok(files)
}

/// The unit that the options name, or characters.
fn unit_of(settings: &[Setting]) -> Unit
    ensures { result ≡ spec.unit_of settings.now }
{
    settings
        .iter()
        .fold(Unit::Chars, |unit, setting| match setting {
            Setting::CountIn(named) => *named,
            _ => unit,
        })
}

/// What the filter file has that the options name, if they name one.
fn filter_of(settings: &[Setting]) -> Option<FilterKind>
    ensures { result ≡ spec.filter_of settings.now }
{
    settings.iter().fold(None, |filter, setting| match setting {
        Setting::Suppress(_) => Some(FilterKind::Abbreviations),
        Setting::Tailor(_) => Some(FilterKind::Pairs),
        _ => filter,
    })
}

/// Whether there are at most 16 property files, and `$dictionary` is ignored once at most.
fn are_few(settings: &[Setting]) -> bool
    ensures { result ≡ spec.are_few settings.now }
{
    count_properties(settings) <= MOST_PROPERTIES && count_ignoring(settings) <= 1
}

/// Whether the options say what defines the boundaries: a table file, and then only options on how
/// boundaries are reported may be there too; or rules.
fn are_basis(settings: &[Setting]) -> bool
    ensures { result ≡ spec.are_basis settings.now }
{
    if are_by_table(settings) {
        settings.len().saturating_sub(count_tellings(settings)) == 1
    } else {
        are_few(settings)
    }
}

/// Whether a command that takes such options takes these.
pub(super) fn are_taken(takes: Takes, settings: &[Setting]) -> bool
    ensures { result ≡ spec.are_taken takes settings.now }
{
    match takes {
        Takes::NoOptions => settings.is_empty(),
        Takes::RuleOptions => {
            !are_by_table(settings) && are_few(settings) && count_tellings(settings) == 0
        }
        Takes::RuleOptionsOrTable => are_basis(settings) && count_tellings(settings) == 0,
        Takes::RuleOptionsOrTableAndTelling => {
            are_basis(settings) && count_tellings(settings) <= 1
        }
    }
}

/// What these options mean.
pub(super) fn options_of(alloc: Global, settings: Vec<Setting>) -> Result<Options, AllocError>
    ensures { IfOk result (λ options. options_in options ≡ spec.options_of settings.items) }
{
    let ignored = ignores_dictionary(&settings);
    let by_table = are_by_table(&settings);
    let unit = unit_of(&settings);
    let filter = filter_of(&settings);
    let files = files_of(alloc, &settings)?;
    let properties = settings
        .into_iter()
        .filter_map(|setting| match setting {
            Setting::HandIn(property) => Some(property),
            _ => None,
        })
        .collect(alloc)?;
    Ok(Options {
        files,
        properties,
        ignored,
        by_table,
        unit,
        filter,
    })
}
