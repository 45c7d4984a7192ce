ghost use Rattle.table_laws.specs.Built.{BuiltImagesAreRead};
ghost use Rattle.table_laws.specs.Laws.{LayoutsAreRead, LayoutsAreRecognised, LayoutsReadAs, TablesAreOne};
ghost use Rattle.table_laws.specs.Laws.{TablesAreReadAs, TablesOrRefusal};

/// Nothing is done: the contract is the law of tables on any bytes.
///
/// The answer to a file is tables exactly where its bytes read as these, with the kind, the slot of the
/// extended partition and the sector size that are recognised.
pub fn tables_are_read_as()
    ensures { TablesAreReadAs }
{}

/// Nothing is done: the contract is the law that bytes have tables, and one set of them, or a refusal,
/// and never both.
pub fn tables_or_refusal()
    ensures either { TablesOrRefusal }
    ensures one { TablesAreOne }
{}

/// Nothing is done: the contract is the law that an image whose tables read back reads as what the
/// layout has, with the layout's own kind, slot and sector size.
pub fn layouts_read_as()
    ensures { LayoutsReadAs }
{}

/// Nothing is done: the contract is the law of what is recognised of a layout.
///
/// It is the layout's kind, slot and sector size, where no primary partition has the type 05, 0F or EE and
/// no `EFI PART` stands at 512 in sectors of 4096 bytes. A hybrid with empty entries alone shows no hybrid.
pub fn layouts_are_recognised()
    ensures { LayoutsAreRecognised }
{}

/// Nothing is done: the contract is the law that such an image is read as the layout's tables.
pub fn layouts_are_read()
    ensures { LayoutsAreRead }
{}

/// Nothing is done: the contract is the law that what is built by a layout is read as its tables.
pub fn built_images_are_read()
    ensures { BuiltImagesAreRead }
{}
