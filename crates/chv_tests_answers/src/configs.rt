// Configurations that are checked (`chv_config`).
use crate::answers::{Shown, allocated, allowed, answer, written};
use crate::json::{read_config, read_disk};
use crate::words::{cut, found};
use chv_config::{check, check_disk};
use chv_defs_api::{Checked, ZoneConfig};
use chv_defs_base::{Name, Row, Text, beside};
use chv_json::config_text;
use std::alloc::{AllocError, Global};
use std::io;

/// `check NAMES BODY`: what is kept of the configuration in a body, where disks of these names stand by.
pub fn checked(alloc: Global, words: &str) -> io::Result<String> {
    let (names, body) = cut(words, ' ');
    let names = names_of(alloc, names)?;
    let (config, names) = beside(read_config(alloc, body), names)?;
    let answer = answer(alloc, check(alloc, &config, &names));
    drop(config);
    drop(names);
    allocated(answer)
}

/// `further NAMES BODY DISK`: the disk in a body as it is added to a machine of the configuration in another.
pub fn further(alloc: Global, words: &str) -> io::Result<String> {
    let (names, behind) = cut(words, ' ');
    let (body, disk) = cut(behind, ' ');
    let names = names_of(alloc, names)?;
    let (now, names) = beside(now_of(alloc, body, &names), names)?;
    let answer = added(alloc, &now, disk, &names);
    drop(now);
    drop(names);
    answer
}

fn now_of(alloc: Global, body: &str, names: &Row<Name>) -> io::Result<Checked> {
    let config = read_config(alloc, body)?;
    let now = allowed(check(alloc, &config, names));
    drop(config);
    now
}

fn added(alloc: Global, now: &Checked, disk: &str, names: &Row<Name>) -> io::Result<String> {
    let disk = read_disk(alloc, disk)?;
    let answer = answer(alloc, check_disk(alloc, now, &disk, names));
    drop(disk);
    allocated(answer)
}

/// Names with commas between them; `-` is none.
pub fn names_of(alloc: Global, words: &str) -> io::Result<Row<Name>> {
    let mut names = Row::empty(alloc);
    for word in words.split(',') {
        if word != "-" {
            push_name(alloc, &mut names, word)?;
        }
    }
    Ok(names)
}

fn push_name(alloc: Global, names: &mut Row<Name>, word: &str) -> io::Result<()> {
    let name = found(Name::of(Text::of(alloc, word)?).ok())?;
    allocated(names.push(name))
}

// A configuration that is kept, and its zones in effect.
impl Shown for Checked {
    fn shown(&self, alloc: Global) -> Result<String, AllocError> {
        let mut kept = written(alloc, config_text(alloc, &self.config))?;
        for zone in self.zones.as_slice() {
            push_zone(&mut kept, zone)?;
        }
        Ok(kept)
    }
}

fn push_zone(kept: &mut String, zone: &ZoneConfig) -> Result<(), AllocError> {
    let id = zone.id.as_str();
    let size = zone.size;
    let hotplug = zone.hotplug;
    let hotplugged = zone.hotplugged;
    write!(kept, " {id}:{size}:{hotplug}:{hotplugged}")
}
