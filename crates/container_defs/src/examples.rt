//! Worked examples: each group is the contract of a function that does nothing.
ghost use Rattle.container_defs.specs.CheckExamples.{DefaultsInTuples, RemoteArguments, Getters, Flattened, Others, Identifiers, SkippedVariants, TagConflicts, SameTags, Transparent, FromConflicts};
ghost use Rattle.container_defs.specs.ModelExamples.{Styles, Parts, Renamed, EmptyEnums, Order, AllFields};
ghost use Rattle.container_defs.specs.ReaderExamples.{FieldsRead, ContainersRead, EnumsRead};
ghost use Rattle.container_defs.specs.FormExamples.{FormsOfItems, FormsOfRules, FormsOfVariants, FormsOfFields, FormsOfRests, FormsOfTables};

/// Defaults in tuple structs.
pub fn defaults_in_tuples()
    ensures { DefaultsInTuples }
{}

/// Arguments of remote types.
pub fn remote_arguments()
    ensures { RemoteArguments }
{}

/// Getters in structs and enums.
pub fn getters()
    ensures { Getters }
{}

/// Flattened fields in each style.
pub fn flattened_fields()
    ensures { Flattened }
{}

/// Variants that stand for all others.
pub fn other_variants()
    ensures { Others }
{}

/// Variants of identifiers.
pub fn identifiers()
    ensures { Identifiers }
{}

/// Variants with functions of their own, and what they skip.
pub fn skipped_variants()
    ensures { SkippedVariants }
{}

/// Fields beside an internal tag.
pub fn tag_conflicts()
    ensures { TagConflicts }
{}

/// A tag and its content of one name.
pub fn same_tags()
    ensures { SameTags }
{}

/// Transparent structs, for both derives.
pub fn transparent_structs()
    ensures { Transparent }
{}

/// Two types from which a container is made.
pub fn from_conflicts()
    ensures { FromConflicts }
{}

/// How fields of structs and variants are written.
pub fn styles()
    ensures { Styles }
{}

/// Unions, parameters, and what is handed on as it is written.
pub fn parts()
    ensures { Parts }
{}

/// Names of fields and variants by rules.
pub fn names_by_rules()
    ensures { Renamed }
{}

/// Attributes of enums without variants.
pub fn empty_enums()
    ensures { EmptyEnums }
{}

/// The order in which diagnostics are told.
pub fn order()
    ensures { Order }
{}

/// Fields of all variants, and getters among them.
pub fn all_fields()
    ensures { AllFields }
{}

/// What the reader of values makes of fields.
pub fn fields_read()
    ensures { FieldsRead }
{}

/// What it makes of structs.
pub fn containers_read()
    ensures { ContainersRead }
{}

/// What it makes of enums.
pub fn enums_read()
    ensures { EnumsRead }
{}

/// Items inside and outside the reader's forms.
pub fn forms_of_items()
    ensures { FormsOfItems }
{}

/// Items with rules, inside and outside.
pub fn forms_of_rules()
    ensures { FormsOfRules }
{}

/// Variants inside and outside.
pub fn forms_of_variants()
    ensures { FormsOfVariants }
{}

/// Fields inside and outside.
pub fn forms_of_fields()
    ensures { FormsOfFields }
{}

/// Structs with rests inside and outside.
pub fn forms_of_rests()
    ensures { FormsOfRests }
{}

/// Tables of items inside and outside.
pub fn forms_of_tables()
    ensures { FormsOfTables }
{}
