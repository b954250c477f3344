//! What the program says of itself.

/// The version.
pub const VERSION: &str = "sort_names 0.2.0\n";

/// The words that there are.
pub const HELP: &str = "\
usage: sort_names --records FILE [WORD].. [FILE]..
       sort_names --over ROOT FILE [WORD].. [FILE]..

Writes the lines of all FILEs, or of standard input where there is none or - stands for it, in the order of a records
file, or of one that is put over another. Equal lines stay as they came. A last line without its end gets one.

    -o FILE          writes FILE, which may be one that is read
    -r               the greatest first
    -u               of equal lines the first alone; with -c none may be equal
    -s               equal lines as they came: always so
    -z               lines end in NUL
    -c, -C           says which line is the first out of order, in one FILE; -C says nothing. The status is 1 then
    -k F[,G]         compares the Fth field to the last, or to the Gth
    -t SEP           a byte between fields; without it blanks, which belong to the field behind them
    --csv COLUMN     compares this column of CSV files: their first record names the columns and comes first
    -m               merges FILEs, each of which is in order; nothing is said of characters
    -S SIZE          keeps lines past SIZE in files, sorted in parts: KiB, or b, K, M, G, T behind a number
    -T DIR           the folder of these files (TMPDIR, or /tmp)
    --keys           each line behind its key, in hexadecimal digits, and a TAB; not with -m, -S
    --crlf           a CR before the end of a line isn't compared
    --numeric, --shifted, --upper-first, --strength VALUE (primary, secondary, tertiary, quaternary, identical),
    --alternate, --maxvariable, --caselevel, --casefirst VALUE, each also as NAME=VALUE
    --unknown        lists the characters that the records don't name, in place of sorting
    --quiet          says nothing of these
    --progress       says how far it is
    --default-records FILE, --default-over ROOT FILE    for --records and --over, where neither is given
    -h, --help, --version

The status is 0, 1 where -c or -C finds a line out of order, and 2 for trouble.
";
