use base_fields::Name;

/// Why a configuration was not read. First comes what is met first in the walk through the texts,
/// and only where all texts were read the first key or value, in the order of the sections and
/// their items.
#[derive(Debug, Drop)]
pub enum ConfFault {
    /// At `place`, in bytes from the start of the text of that name, stands no token, or one that
    /// can't stand there; the length of the text where it ends too early.
    BadText { name: Name, place: u64 },
    /// A variable has no value.
    Unset { var: Name },
    /// The text of that name would be included at a nesting above 8.
    DeepInclude { name: Name },
    /// The texts up to here have so many bytes in all, more than 1,048,576. The number ends at
    /// 2^64 - 1.
    TooLong { total: u64 },
    /// There is no file of that name.
    Missing { name: Name },
    /// That file ends at or before the byte at `at`, which is needed.
    SourceShort { name: Name, at: u64 },
    /// A call on the files failed.
    FileFault,
    /// There is no such key or section, which stands at `place` of the text of that name.
    UnknownKey { name: Name, place: u64 },
    /// What stands at `place` of the text of that name is no value that the key may have, or the
    /// section whose word it is lacks something.
    BadValue { name: Name, place: u64 },
    /// Memory was refused.
    NoMemory,
}
