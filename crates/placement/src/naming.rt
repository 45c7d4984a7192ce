//! Faults with the names of what is at fault.
ghost use Rattle.std.specs.Prelude.{◌≡◌, ◌<◌, Some, IfOk, length};
ghost use Rattle.placement.specs.Said.{IsFaultKnown, IsFaultOf, IsKnown, met_name, name_at, named};
ghost use Rattle.placement_rules.specs.Terms.{names_of};

use base_fields::{Name, NoMemory};
use conf_keys::Kind;
use image_specs::ImageSpec;
use placement_rules::{Meeting, PartFault, PlaceFault};
use std::alloc::Global;

/// The name of a partition, by its number: that of the image where it has one part.
pub fn name_at(spec: &ImageSpec, number: usize) -> &Name
    requires { number < length (names_of spec.now) }
    ensures { result.now ≡ name_at (names_of spec.now) number }
{
    match spec.kind {
        Kind::Plain => &spec.name,
        _ => &spec.keys.parts.as_slice()[number].name,
    }
}

pub fn copy_name(alloc: Global, name: &Name) -> Result<Name, NoMemory>
    ensures { IfOk result (λ copy. copy ≡ name.now) }
{
    Name::of(alloc, name.text())
}

/// The name of a partition, which is copied.
fn name_of(alloc: Global, spec: &ImageSpec, number: usize) -> Result<Name, NoMemory>
    requires { number < length (names_of spec.now) }
    ensures { IfOk result (λ name. name ≡ name_at (names_of spec.now) number) }
{
    copy_name(alloc, name_at(spec, number))
}

/// What a partition meets, by its name.
fn met_name(alloc: Global, spec: &ImageSpec, met: Meeting) -> Result<Name, NoMemory>
    requires { IsKnown (length (names_of spec.now)) met }
    ensures { IfOk result (λ name. name ≡ met_name (names_of spec.now) met) }
{
    match met {
        Meeting::Mbr => Name::of(alloc, "[mbr]"),
        Meeting::Header => Name::of(alloc, "[gpt-header]"),
        Meeting::Entries => Name::of(alloc, "[gpt-entries]"),
        Meeting::Front => Name::of(alloc, "[front]"),
        Meeting::Earlier(number) => name_of(alloc, spec, number),
    }
}

/// The fault of a partition, by its number.
pub fn named(alloc: Global, spec: &ImageSpec, number: usize, fault: PartFault) -> PlaceFault
    requires number { number < length (names_of spec.now) }
    requires known { IsFaultKnown (length (names_of spec.now)) fault }
    ensures { IsFaultOf (Some (named (names_of spec.now) (name_at (names_of spec.now) number) fault)) result }
{
    match try_named(alloc, spec, number, fault) {
        Ok(named) => named,
        Err(NoMemory) => PlaceFault::NoMemory,
    }
}

fn try_named(
    alloc: Global,
    spec: &ImageSpec,
    number: usize,
    fault: PartFault,
) -> Result<PlaceFault, NoMemory>
    requires number { number < length (names_of spec.now) }
    requires known { IsFaultKnown (length (names_of spec.now)) fault }
    ensures { IfOk result (λ made. made ≡ named (names_of spec.now) (name_at (names_of spec.now) number) fault) }
{
    let part = name_of(alloc, spec, number)?;
    Ok(match fault {
        PartFault::Misaligned { value, align } => PlaceFault::Misaligned { part, value, align },
        PartFault::BadHoles { index } => PlaceFault::BadHoles { part, index },
        PartFault::BadAutoresize { room, least } => PlaceFault::BadAutoresize { part, room, least },
        PartFault::FileTooLarge { has, limit } => PlaceFault::FileTooLarge { part, has, limit },
        PartFault::NoSize => PlaceFault::NoSize { part },
        PartFault::TooFar { number, limit } => PlaceFault::TooFar {
            part,
            number,
            limit,
        },
        PartFault::Meets(met) => PlaceFault::Overlap {
            a: part,
            b: met_name(alloc, spec, met)?,
        },
    })
}
