//! Worked rows of the definitions, as theorems: each function has an empty body, and its `ensures` is the fact.
ghost use Rattle.std.specs.Prelude.{◌≡◌, ◌++◌, [], Ok, Err, codes, pos};
ghost use Rattle.def_tables.specs.declared.fault.DefsFault.TheVariants as fault;
ghost use Rattle.def_rows.specs.Sample.{sample, sample_text};
ghost use Rattle.fp_defs.specs.Whole.{defs_of};

/// The sample.
pub fn the_sample_is_read()
    ensures { defs_of sample_text ≡ Ok sample }
{}

/// No bytes are a document without keys.
pub fn no_bytes_lack_regions()
    ensures { defs_of [] ≡ Err (fault.Missing (codes "regions")) }
{}

/// Bytes that are no document.
pub fn a_cut_line_is_no_document()
    ensures { defs_of (codes "regions = ") ≡ Err fault.NotToml }
{}

/// A key that the format lacks is found before one that is missing, and the least of several.
pub fn an_unknown_key_comes_first()
    ensures { defs_of (codes "zone = 1\nspool = 2\n") ≡ Err (fault.Unknown (codes "spool")) }
{}

/// Of the groups that have no region the least is named.
pub fn the_least_missing_group_is_named()
    ensures { defs_of (codes "regions = [1, 5, 3]\n") ≡ Err (fault.OutOfLimit (codes "regions") (pos 2)) }
{}

/// A key that stands twice among the loaded segments is found behind all values that don't fit.
pub fn a_loaded_key_stands_once()
    ensures twice { defs_of
        (codes "regions = [1]\nrouter = \"RANGE\"\n[[msdb]]\nname = \"M\"\nfields = [[\"K\", \"C\", 3]]\nload = [[\"A\"], [\"B\"], [\"A \"]]\n")
        ≡ Err (fault.Twice (codes "A")) }
    ensures misfit { defs_of
        (codes "regions = [1]\nrouter = \"RANGE\"\n[[msdb]]\nname = \"M\"\nfields = [[\"K\", \"C\", 3]]\nload = [[\"A\"], [\"A\"], [\"ABCD\"]]\n")
        ≡ Err (fault.BadField (codes "load")) }
{}

/// The element of a root with a sequential type: 4 bytes in front, 10 to its next twin, 8 for the newest serial, and
/// 461 of its own make 483, which is 484 in fours. An interval of 512 has room for 480.
pub fn an_element_has_its_sequential_pointer()
    ensures { defs_of
        (codes "regions = [1]\nrouter = \"RANGE\"\n[[dedb]]\nname = \"D\"\nrandomizer = \"FOLD\"\nci = 512\narea = [{}]\n[[dedb.segment]]\nname = \"R\"\nfields = [[\"K\", \"C\", 4], [\"F\", \"C\", 457]]\n[[dedb.segment]]\nname = \"S\"\nparent = \"R\"\nsequential = true\nfields = [[\"F\", \"P\", 4]]\n")
        ≡ Err (fault.OutOfLimit (codes "fields") (pos 484)) }
{}
