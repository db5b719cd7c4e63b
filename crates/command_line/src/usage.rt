//! What is printed to whoever asks for help or for the version. `run`, at the top of the repository, takes these texts from this file.
ghost use Rattle.std.specs.Prelude.{◌≡◌};
ghost use Rattle.command_line.specs.Help.{paragraph_of};

/// The program's version, and that of the logs that it writes.
pub const VERSION: &str = "\
shards 1.0
logs of version 2 (SPNLOG02)
";

/// The page: how a command line begins, and what each command is for.
pub const PAGE: &str = "\
usage: shards COMMAND WORD..
       shards help COMMAND, or shards COMMAND --help
       shards --version

A store of keys and timestamped values. Timestamps are whole microseconds since
the year 1970, below 2^62: 'date -d @SECONDS' reads them.

    make     makes an empty store in a folder
    serve    holds a store open, and answers lines of standard input
    export   prints the keys and values of a store
    import   puts keys and values from standard input into a store
    backup   copies a store into another folder, beside whoever writes to it
    renew    writes the logs of a closed store anew, without what is past
    get      prints the value of a key
    put      commits a write of one key
    history  prints all versions of a key
    stats    counts what logs hold
    dump     prints the records of a log
    inspect  judges the logs of a store: yes, or the first fault
    drive    runs shards and workers by a file of settings, and judges the logs
    format   makes the file of a new log
    migrate  writes a log of version 1 into a new file, as one of version 2
    compact  writes a log into a new file, without what was renewed
    play     plays a schedule over shards in memory, and reports it
    once     commits one write on a disk in memory

A word that begins with '-' and is no option goes after '--', as in
'shards put -- DIR KEY -5'. Keys have 1 to 64 bytes, values at most 4096.

status: 0, or 1 if it was too early, the verdict is no or a write does not
surely stand, or 2 at a fault, which is one line on standard error. After a
write that fails nothing more is printed (2).
";

pub const GET: &str = "\
get [--raw] [--json] DIR KEY [AT]
    Prints the value of KEY at the timestamp AT, or by the latest version, as
    '=' and the value, or 'none'. If a write may still come at AT or before it,
    'not settled yet' stands after that. In KEY and in the value any byte may be
    spelled '\\xHH', and all but printable ASCII, the blank and the backslash
    are. It writes to no file.
    --raw   prints the bytes of the value and nothing else; of no value nothing,
            and the status is 1
    --json  prints one JSON object
";

pub const PUT: &str = "\
put [--raw] [--bytes] DIR KEY VALUE
    Commits the write of VALUE to KEY in the store in DIR, as a transaction of
    its own, and prints what became of it: 'committed' and the timestamp; or
    'aborted', if it stands nowhere, or 'unknown' and the transaction, if the
    store did not say in time whether it stands (1). No store is made.
    KEY      1 to 64 bytes; '\\xHH' is the byte HH, in hexadecimal digits
    VALUE    at most 4096 bytes, spelled as KEY; '-' takes the value from
             standard input
    --raw    takes the bytes of VALUE as they are
    --bytes  reads VALUE as without an option
";

pub const HISTORY: &str = "\
history [--json] DIR KEY
    Prints each version of KEY in the store whose logs are in DIR: its timestamp,
    its transaction, and '=' with its value, or 'none' if it was erased. A write
    with 'decided' or 'in doubt' at its end is no version: its transaction has
    no outcome in the log. It writes to no file.
    --json  prints a JSON object for each line
";

pub const STATS: &str = "\
stats [--json] LOG..
    Prints what each log holds, 1 to 16 files, as numbers: bytes, bytes that are
    dead, turnovers done and left, records by kind, keys, versions, the last
    epoch, the floor, and the transactions in doubt, which were promised or
    decided and have no outcome; for several logs also the sums. If LOG is the
    folder of a store, these are all its logs. It writes to no file.
    --json  prints one JSON object
";

pub const DUMP: &str = "\
dump [--json] LOG
    Prints each record of a log, after the offset of its gate in the file, and
    last 'closed at' with the offset of the closed gate; or 'torn at', if bytes
    of a record that was not finished stand there. A byte of a key or a value
    that is no letter, digit or underline stands as '\\xHH'. It writes to no
    file.
    --json  prints a JSON object for each line
";

pub const INSPECT: &str = "\
inspect LINES LOG..
    Judges the logs of shards 0, 1 and so on, 1 to 16 files, and the lines in
    LINES, as 'play' prints them; an empty file has none. Prints the verdict:
    yes, or the first fault, as 'no torn 1.2'. It writes to no file.
";

pub const DRIVE: &str = "\
drive [--table] FILE
    Runs shards and workers in threads, by the settings in FILE: a TOML text
    with the keys shards, splits, stride, epsilon, workers, transactions, keys
    and, for logs in files, dir (docs/example.settings tells what each is).
    Prints how many transactions were committed, were aborted and are unknown,
    how many looks were answered, and the verdict on the logs.
    --table  prints also how long commits, aborts and looks took, to standard
             error, as a terminal shows it
";

pub const FORMAT: &str = "\
format FILE
    Makes FILE, which must not exist, as the file of a new log. Prints nothing.
";

pub const MIGRATE: &str = "\
migrate OLD NEW
    Makes NEW, which must not exist, as a log file of version 2 with the records
    of OLD, a log file of version 1, which stays as it is. Prints nothing.
";

pub const COMPACT: &str = "\
compact OLD NEW
    Makes NEW, which must not exist, as a log file with the records of OLD's log,
    and without what was renewed; OLD stays as it is. Prints nothing.
";

pub const PLAY: &str = "\
play FILE
    Plays the schedule in FILE: sessions, messages and steps of shards on disks
    in memory, at the times that it tells, with crashes, failing calls and
    openings. Prints the report: the reply to each event, the messages, the
    logs, the lines, and the verdict on them.
";

pub const ONCE: &str = "\
once KEY VALUE E1 L1 E2 L2
    Makes a new shard on a disk in memory, commits the write of VALUE to KEY,
    settles it, and prints the timestamp.
    KEY    1 to 64 bytes
    VALUE  at most 4096 bytes
    E1 L1  the clock's reading when the commit comes: the time is from E1 to L1
    E2 L2  its reading when the commit is to settle: E2 has to be above the
           timestamp, else it is too early
    A key or a value that begins with '-' goes after '--', as in
    shards once -- -5 1 100 110 112 121
";

pub const MAKE: &str = "\
make DIR [SPLIT..]
    Makes an empty store in DIR; if DIR is not there, it makes that too. Each
    SPLIT is a key at which the shards part: at most 15, in ascending order.
    If there is a store in DIR, that is refused. Prints nothing.
";

pub const SERVE: &str = "\
serve DIR [OPTION..]
    Opens the store in DIR, prints 'ready' and the run of its ids, and answers
    each line of standard input by one on standard output, until its end or
    'quit'. The line 'help' tells what may be asked.
    --clients N         how many clients work side by side: 1 to 64, and 64 if
                        nothing is said
    --epsilon MICROS    how far the clock may be from true time
    --stride MICROS     how far ahead of the served time a ceiling is logged
    --keep MICROS       how long views of the past are answered
    --renew BYTES       how much a log grows before it is turned over: 67108864
                        if nothing is said
    --shrink BYTES      how far into its file a log that is turned over begins
                        before it goes on in a new file: 67108864 if nothing is
                        said
    --retire IDS        after how many more transactions a shard keeps no more
                        how they ended: 10000 if nothing is said
    --patience MILLIS   how long a transaction waits for another one
    --idle MILLIS       how long an open transaction waits for its next line:
                        1000 to 3600000, and 10000 if nothing is said
";

pub const EXPORT: &str = "\
export [--csv] DIR [AT]
    Prints each key that has a value, and the value, as a line: both spelled as
    'get' prints them, with a blank between them. They are those of the present,
    or of the timestamp AT. Standard error tells how many they are, and at which
    timestamp: 'exported 12 at 1795909873536438'. It opens the store.
    --csv  prints comma-separated values after the header key,value; what is no
           text in UTF-8, or has a backslash, stands spelled
";

pub const IMPORT: &str = "\
import [--csv] DIR
    Puts each key and value that 'export' printed, from standard input, into the
    store in DIR, up to 128 a transaction, and prints how many: 'imported 12'.
    It stops at the first line that is none. What it has put by then stands; to
    import the same lines again puts the same values.
    --csv  reads comma-separated values after the header key,value
";

pub const BACKUP: &str = "\
backup DIR TO
    Copies the store in DIR as it is at one moment into the folder TO; if TO is
    not there, it makes that too. Programs may write to the store meanwhile. If
    TO holds a file of a store, that is refused. Prints nothing.
";

pub const RENEW: &str = "\
renew DIR [OPTION..]
    Writes each log of the store in DIR anew, with what it holds now, into a new
    file that takes its name. No program may have the store open. Prints a line
    for each log: its name, and its bytes before and after.
    --keep MICROS  forgets what is older than so many microseconds before the
                   greatest timestamp of the logs; if nothing is said, nothing
";

/// What is told of a command, or the page where the word is none.
pub fn paragraph(name: &str) -> &'static str
    ensures { result.now ≡ paragraph_of name.now }
{
    match name {
        "get" => GET,
        "put" => PUT,
        "history" => HISTORY,
        "stats" => STATS,
        "dump" => DUMP,
        "inspect" => INSPECT,
        "drive" => DRIVE,
        "format" => FORMAT,
        "migrate" => MIGRATE,
        "compact" => COMPACT,
        "play" => PLAY,
        "once" => ONCE,
        "make" => MAKE,
        "serve" => SERVE,
        "export" => EXPORT,
        "import" => IMPORT,
        "backup" => BACKUP,
        "renew" => RENEW,
        _ => PAGE,
    }
}
