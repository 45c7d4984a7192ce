//! What the items at the top say, in order.
ghost use Rattle.std.specs.Prelude.{◌≡◌, IfOk};
ghost use Rattle.conf_keys.specs.Sections.{Answers};
ghost use Rattle.conf_keys.specs.Within.{IsWithin};
ghost use Rattle.conf_sections.specs.Conf.{conf_of, config_section, flash_section, image_section};
ghost use Rattle.conf_sections.specs.Conf.{nothing_said, with_config, with_item, with_items};
ghost use Rattle.conf_sections.specs.Conf.{with_section};

use crate::image::image_of;
use base_fields::{List, Name};
use conf_items::{Place, TopItem, TopSection};
use conf_keys::{Conf, ConfigKeys, SectionFault, read_config, read_flash};
use std::alloc::Global;

// Of several values of a path the last one counts.
fn with_config(mut conf: Conf, keys: ConfigKeys) -> Conf
    requires { IsWithin conf }
    ensures made { result ≡ with_config conf keys }
    ensures within { IsWithin result }
{
    conf.input = keys.inputpath.unwrap_or(conf.input);
    conf.output = keys.outputpath.unwrap_or(conf.output);
    conf
}

fn config_section(alloc: Global, conf: Conf, section: &TopSection) -> Result<Conf, SectionFault>
    requires { IsWithin conf }
    ensures answers { Answers (config_section conf section.now) result }
    ensures within { IfOk result IsWithin }
{
    let keys = read_config(alloc, &section.head, section.items.as_slice())?;
    Ok(with_config(conf, keys))
}

fn flash_section(alloc: Global, mut conf: Conf, section: &TopSection) -> Result<Conf, SectionFault>
    requires { IsWithin conf }
    ensures answers { Answers (flash_section conf section.now) result }
    ensures within { IfOk result IsWithin }
{
    let flash = read_flash(alloc, &section.head, section.items.as_slice())?;
    conf.flashes.push(flash)?;
    Ok(conf)
}

fn image_section(alloc: Global, mut conf: Conf, section: &TopSection) -> Result<Conf, SectionFault>
    requires { IsWithin conf }
    ensures answers { Answers (image_section conf section.now) result }
    ensures within { IfOk result IsWithin }
{
    let image = image_of(alloc, section)?;
    conf.images.push(image)?;
    Ok(conf)
}

// No such section or option may stand at the top.
fn unknown(place: Place) -> Result<Conf, SectionFault>
    ensures { result ≡ Err (SectionFault.UnknownKey place) }
{
    Err(SectionFault::UnknownKey { place })
}

fn with_section(alloc: Global, conf: Conf, section: &TopSection) -> Result<Conf, SectionFault>
    requires { IsWithin conf }
    ensures answers { Answers (with_section conf section.now) result }
    ensures within { IfOk result IsWithin }
{
    match section.head.word.text.text() {
        "config" => config_section(alloc, conf, section),
        "flash" => flash_section(alloc, conf, section),
        "image" => image_section(alloc, conf, section),
        _ => unknown(section.head.word.place),
    }
}

fn with_item(alloc: Global, conf: Conf, item: &TopItem) -> Result<Conf, SectionFault>
    requires { IsWithin conf }
    ensures answers { Answers (with_item conf item.now) result }
    ensures within { IfOk result IsWithin }
{
    match item {
        TopItem::Setting(setting) => unknown(setting.key.place),
        TopItem::Section(section) => with_section(alloc, conf, section),
    }
}

fn with_items(alloc: Global, mut conf: Conf, items: &[TopItem]) -> Result<Conf, SectionFault>
    requires { IsWithin conf }
    ensures answers { Answers (with_items items.now conf) result }
    ensures within { IfOk result IsWithin }
{
    for item in items {
        conf = with_item(alloc, conf, item)?;
    }
    Ok(conf)
}

// No item was read yet. Takes no memory.
fn nothing_said(alloc: Global) -> Conf
    ensures made { result ≡ nothing_said }
    ensures within { IsWithin result }
{
    Conf {
        input: Name::from_string(String::new(alloc)),
        output: Name::from_string(String::new(alloc)),
        flashes: List::new(alloc),
        images: List::new(alloc),
        texts: List::new(alloc),
    }
}

/// What these items at the top say, with no name of a text, or their first fault in order.
/// Takes memory.
pub(crate) fn conf_of(alloc: Global, items: &[TopItem]) -> Result<Conf, SectionFault>
    ensures answers { Answers (conf_of items.now) result }
    ensures within { IfOk result IsWithin }
{
    Ok(with_items(alloc, nothing_said(alloc), items)?)
}
