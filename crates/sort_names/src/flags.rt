//! The words that begin with `-`, by their names.

/// A word that takes no value.
#[derive(Clone, Copy, Debug, PartialEq, Eq)]
pub enum Switch {
    /// `-r`: the greatest first.
    Reverse,
    /// `-u`: of equal lines the first.
    Unique,
    /// `-s`: equal lines as they came, which is always so.
    Stable,
    /// `-z`: lines end in NUL.
    ZeroEnded,
    /// `-c`: whether the lines are in order.
    Check,
    /// `-C`: the same, and says nothing.
    CheckSilently,
    /// `-m`: files that are in order are merged.
    Merge,
    /// `--keys`: each line after its key.
    Keys,
    /// `--crlf`: a CR before a line's end belongs to it.
    CrLf,
    /// `--quiet`: no line of what the records don't say.
    Quiet,
    /// `--progress`: how far the run is.
    Progress,
    /// `--unknown`: a list of the characters that the records don't name.
    Unknown,
    /// `--numeric`: digits by their value.
    Numeric,
    /// `--shifted`: spaces and punctuation count at the fourth level alone.
    Shifted,
    /// `--upper-first`: upper case before lower case.
    UpperFirst,
    /// `-h`, `--help`.
    Help,
    /// `--version`.
    Version,
}

/// A word that takes a value.
#[derive(Clone, Copy, Debug, PartialEq, Eq)]
pub enum Setting {
    /// `-o FILE`: where the lines go.
    Output,
    /// `-k F[,G]`: which fields are compared.
    Key,
    /// `-t SEP`: the byte between fields.
    Separator,
    /// `--csv COLUMN`: the lines are records of CSV, compared by a column.
    Csv,
    /// `-S SIZE`: how much memory lines may fill before they are kept in parts.
    Size,
    /// `-T DIR`: the folder that parts are kept in.
    Folder,
    /// `--records FILE`: the records.
    Records,
    /// `--over ROOT FILE`: the records of a root, and those that are put over it.
    Over,
    /// `--default-records FILE`: the records, where no other word gives any.
    DefaultRecords,
    /// `--default-over ROOT FILE`: the same of a root, and of what is put over it.
    DefaultOver,
}

/// What a word that begins with `-` is.
#[derive(Clone, Copy, Debug, PartialEq, Eq)]
pub enum Flag {
    /// One without a value.
    Switch(Switch),
    /// One with a value.
    Setting(Setting),
}

/// The flag of a letter after `-`.
pub fn flag_of_letter(letter: char) -> Option<Flag> {
    let switch = match letter {
        'r' => Switch::Reverse,
        'u' => Switch::Unique,
        's' => Switch::Stable,
        'z' => Switch::ZeroEnded,
        'c' => Switch::Check,
        'C' => Switch::CheckSilently,
        'm' => Switch::Merge,
        'h' => Switch::Help,
        'o' => return Some(Flag::Setting(Setting::Output)),
        'k' => return Some(Flag::Setting(Setting::Key)),
        't' => return Some(Flag::Setting(Setting::Separator)),
        'S' => return Some(Flag::Setting(Setting::Size)),
        'T' => return Some(Flag::Setting(Setting::Folder)),
        _ => return None,
    };
    Some(Flag::Switch(switch))
}

/// The switch of a name after `--`.
fn switch_of_name(name: &str) -> Option<Switch> {
    let switch = match name {
        "reverse" => Switch::Reverse,
        "unique" => Switch::Unique,
        "stable" => Switch::Stable,
        "zero-terminated" => Switch::ZeroEnded,
        "check" | "check=diagnose-first" => Switch::Check,
        "check=quiet" | "check=silent" => Switch::CheckSilently,
        "merge" => Switch::Merge,
        "keys" => Switch::Keys,
        "crlf" => Switch::CrLf,
        "quiet" => Switch::Quiet,
        "progress" => Switch::Progress,
        "unknown" => Switch::Unknown,
        "numeric" => Switch::Numeric,
        "shifted" => Switch::Shifted,
        "upper-first" => Switch::UpperFirst,
        "help" => Switch::Help,
        "version" => Switch::Version,
        _ => return None,
    };
    Some(switch)
}

/// The flag of a name after `--`, which no value follows after `=`.
pub fn flag_of_name(name: &str) -> Option<Flag> {
    if let Some(switch) = switch_of_name(name) {
        return Some(Flag::Switch(switch));
    }
    let setting = match name {
        "output" => Setting::Output,
        "key" => Setting::Key,
        "field-separator" => Setting::Separator,
        "csv" => Setting::Csv,
        "buffer-size" => Setting::Size,
        "temporary-directory" => Setting::Folder,
        "records" => Setting::Records,
        "over" => Setting::Over,
        "default-records" => Setting::DefaultRecords,
        "default-over" => Setting::DefaultOver,
        _ => return None,
    };
    Some(Flag::Setting(setting))
}

/// Whether this is the name of one of the six options.
pub fn is_option_name(name: &str) -> bool {
    match name {
        "strength" | "alternate" | "maxvariable" | "caselevel" | "casefirst" | "numeric" => true,
        _ => false,
    }
}

/// The values that the option of a name may have.
pub fn values_of_option(name: &str) -> &'static str {
    match name {
        "strength" => "primary, secondary, tertiary, quaternary, identical",
        "alternate" => "nonignorable, shifted",
        "maxvariable" => "space, punctuation, symbol, currency",
        "casefirst" => "off, lower, upper",
        _ => "off, on",
    }
}
