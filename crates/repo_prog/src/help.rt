//! What the help of each command says below its words.

/// Below the help of `vault init`.
pub const INIT: &str = "\
With --format 2 it is of version 2: a directory may hold any number of files there. `vault upgrade` makes one of version 1
such a store later.

Example:
  vault init store

Exit status:
  0  the store is made, and its instance printed
  1  standard error says why. With `write failed` or `shelf failed` it may be made; else it has no config
  2  the words make no command, or a number is outside its limits";

/// Below the help of `vault serve`.
pub const SERVE: &str = "\
It writes `listening` once it listens. If the port of the address is 0, the system chooses the port, and a second
line is `address HOST:PORT`.

A connection on which nothing comes for so many seconds, or that takes nothing of what is written to it, is
ended, and the next one is served. With 0 none is. If a connection can't be taken, as for want of descriptors,
`read failed` is written once, and it is tried again ten times a second.

With --at-once several connections are open, 256 at most, and one request of each is answered in turn; a slow or a
silent one holds nobody up. Time in which another's long request is answered counts against no connection.

With --memory requests of more than 1 MiB wait in a queue until there is room for them; one alone is always read.
While others wait, one that comes slower than 64 KiB a second over a minute is ended, with `too slow`. By default
none waits. If somebody waits for a connection while all are taken, `all places are taken` is written once.

With --append-only no object is ever deleted, whoever asks: a forget or a prune that has something to delete
ends with refused 14.

Example:
  vault serve store 127.0.0.1:7070 --connections 1000

Exit status:
  0  every connection was served to its end
  1  one ended with an error, or nothing could be served; standard error says why
  2  the words make no command";

/// Below the help of `vault backup`.
pub const BACKUP: &str = "\
With --retry N it connects again where a connection ends or can't be had, N times at most and without a pause, and
goes on where it stood. The error of the last try is told.

Example:
  vault backup 127.0.0.1:7070 laptop photos
  vault backup 127.0.0.1:7070 laptop photos --retry 3

Exit status:
  0  the snapshot is stored
  1  it ended before it could say so, and standard error says why; at its very end the snapshot may be stored
  2  the words make no command
  3  the snapshot is stored, without the entries that standard error names";

/// Below the help of `vault snapshots`.
pub const SNAPSHOTS: &str = "\
With --retry N it connects again where a connection ends or can't be had, N times at most and without a pause, and
goes on where it stood. The error of the last try is told.

Example:
  vault snapshots 127.0.0.1:7070
  vault snapshots 127.0.0.1:7070 --retry 3

Exit status:
  0  each snapshot is printed: its name, its time in seconds since 1970, its host
  1  they couldn't be listed, and standard error says why
  2  the words make no command";

/// Below the help of `vault restore`.
pub const RESTORE: &str = "\
The folder is made if it isn't there. If it is there it must be empty; a file system's own `lost+found` doesn't count.
Folders are made with mode 0700 and files with 0600, whatever the umask is. If root restores, and another user may
write in the folder or in one above it, the restore ends with `target not safe`.

With --retry N it connects again where a connection ends or can't be had, N times at most and without a pause, and
goes on where it stood. The error of the last try is told.

Example:
  vault restore 127.0.0.1:7070 NAME photos-again
  vault restore 127.0.0.1:7070 NAME photos-again --retry 3
where NAME is the 64 digits that `backup` and `snapshots` print.

Exit status:
  0  all of the snapshot is restored
  1  it ended before, and standard error says why; what was written so far stays
  2  the words make no command, or NAME is no name";

/// Below the help of `vault forget`.
pub const FORGET: &str = "\
Either NAMEs are given, or a policy, of which one count at least isn't 0. Of each host a policy keeps the last
snapshots, so many as --keep-last says, and the last one of each of the last days that have one, so many days
as --keep-daily says; all others are forgotten. What was stored for them stays in the store. With --host HOST the
policy goes over the snapshots of that host alone.

With --dry-run it lists the snapshots, tells which ones would be forgotten, and forgets none. Others may use the store
meanwhile, and what they store or forget may change what a forget does later.

With --retry N it connects again where a connection ends or can't be had, N times at most and without a pause, and
goes on where it stood. The error of the last try is told.

Example:
  vault forget 127.0.0.1:7070 --keep-last 3 --keep-daily 14 --dry-run
  vault forget 127.0.0.1:7070 --keep-last 3 --keep-daily 14
  vault forget 127.0.0.1:7070 --keep-last 1 --host laptop
  vault forget 127.0.0.1:7070 --keep-last 3 --retry 3
  vault forget 127.0.0.1:7070 NAME
where NAME is the 64 digits that `backup` and `snapshots` print. One that isn't there is passed over.

Exit status:
  0  each of these snapshots is forgotten, and its name printed; or with --dry-run each that would be is printed
  1  it ended before, and standard error says why; some may be forgotten, but with --dry-run none
  2  the words make no command, a NAME is no name, or there are names and a policy or a host";

/// Below the help of `vault prune`.
pub const PRUNE: &str = "\
What was forgotten takes up room until then. Nobody else can use the store while it runs. If it ends before it is
done, every snapshot still has all that it had, and the next prune goes on. With `missing pack` an index names a pack
that is gone: nothing was changed, and each prune ends so until the pack is back or no index names it.

With --retry N it connects again where a connection ends or can't be had, N times at most and without a pause, and
goes on where it stood. The error of the last try is told.

Example:
  vault prune 127.0.0.1:7070
  vault prune 127.0.0.1:7070 --retry 3

Exit status:
  0  it is done; printed is how many packs are deleted, and how many bytes of blobs are in new ones
  1  it ended before, and standard error says why
  2  the words make no command";

/// Below the help of `vault check`.
pub const CHECK: &str = "\
It reads every snapshot, index and pack, and every directory that a snapshot needs, and changes nothing. Nobody else
can use the store while it runs. A line for each thing that is at fault:
  fault THING NAME missing     it is listed, or is a tree that is needed, and isn't there
  fault THING NAME name        its bytes aren't those of its name
  fault THING NAME unreadable  its bytes make no such thing
  fault THING NAME unindexed   a snapshot needs it, and no index tells where it is
  fault index NAME place       it tells of a pack what that doesn't hold
where THING is snapshot, index, pack, content or tree, and NAME the 64 digits of its name.

With --retry N it connects again where a connection ends or can't be had, N times at most and without a pause, and
goes on where it stood. The error of the last try is told.

Example:
  vault check 127.0.0.1:7070
  vault check 127.0.0.1:7070 --retry 3

Exit status:
  0  all is well; printed is `clean`, and how many snapshots, indexes, packs and needed blobs there are
  1  it ended before, and standard error says why
  2  the words make no command
  3  things are at fault, and each is printed";

/// Below the help of `vault upgrade`.
pub const UPGRADE: &str = "\
In version 2 a directory may hold any number of files. What is stored stays as it is, and every command works as before;
a program that knows version 1 alone works there no more. There is no way back.
Nobody else can use the store while it runs; where it is of version 2 already, nothing changes.

With --retry N it connects again where a connection ends or can't be had, N times at most and without a pause, and
goes on where it stood. The error of the last try is told.

Example:
  vault upgrade 127.0.0.1:7070
  vault upgrade 127.0.0.1:7070 --retry 3

Exit status:
  0  the store is of version 2, and `upgraded` is printed
  1  it ended before it could say so, and standard error says why; at its very end the store may be of version 2
  2  the words make no command";

/// Below the help of `vault locks`.
pub const LOCKS: &str = "\
Example:
  vault locks 127.0.0.1:7070

Exit status:
  0  each live lock is printed: its token, `shared` or `exclusive`, its time, its host
  1  they couldn't be listed, and standard error says why
  2  the words make no command";

/// Below the help of `vault refresh`.
pub const REFRESH: &str = "\
Example:
  vault refresh 127.0.0.1:7070 7

Exit status:
  0  the lock has this moment as its time
  1  the store didn't say so, and standard error says why
  2  the words make no command";

/// Below the help of `vault unlock`.
pub const UNLOCK: &str = "\
Without --remove-all the locks are removed whose time lies more than 30 minutes back.
A client whose lock is removed can change nothing from then on.

Example:
  vault unlock 127.0.0.1:7070

Exit status:
  0  each of these locks is removed, and its token printed
  1  one couldn't be, and standard error says why
  2  the words make no command";

/// Below the help of `vault frames`.
pub const FRAMES: &str = "\
Example:
  echo 0000001901010101010101010101010101010101010000000000000001 | vault frames

Exit status:
  0  every request was answered
  1  it ended with a fault, whose text is on standard error
  2  the words make no command";

/// Below the help of `vault play`.
pub const PLAY: &str = "\
Each line of the input is one of:
  dir PATH, file PATH HEX       one more entry for the next backup; - stands for no bytes
  start backup HOST TIME        a client starts; clients are numbered from 0
  start pieces HOST TIME        a backup of what it is fed
  feed K dir NAME               client K is fed this: a directory that begins in the open one, and is open then
  feed K file NAME              .. a file that begins in the open directory
  feed K bytes HEX              .. more bytes of the open file
  feed K close, feed K end      .. the end of the open file, else of the open directory; the end of all
  feed K abandon                .. that it is given up
  start restore K               of the snapshot that client K stored
  start list, start prune, start check, start upgrade
  start forget K..              of the snapshots that these clients stored
  start keep LAST DAILY         a forget by a policy
  old start ..                  the same of a client that knows version 1 alone
  step K, finish K              client K's pending request is answered, and the reply taken: once, or to its end
  until K WORD                  so it goes on until that request is a WORD: ticket, lock, config, list, get, range,
                                put-pack, put-index, put-snapshot, delete-pack, delete-index, delete-snapshot, unlock,
                                upgrade
  late K, replay                the last request of K, or each one so far, comes once more
  deliver I                     message I comes, counted from 0
  fault K applied               a step in which the device fails, after a change or, with unapplied, before it, or,
                                with read, where it reads
  unlock T, crash K, restart    token T's lock is removed; client K stops; the store is closed and opened
  ask ticket, ask locks         somebody who is no client asks the store for that, and what it says is told
  ask lock T shared             .. for token T's lock, shared or exclusive
  ask refresh T TIME            .. for a later time of it
  append-only                   as the first line: the store deletes nothing
  report                        how all clients stand, and what the store has

Example:
  printf 'file a 00\\nstart backup laptop 5\\nfinish 0\\nreport\\n' | vault play

Exit status:
  0  every line was run
  1  it ended with a fault, whose text is on standard error; what earlier lines print stands
  2  the words make no command";

/// Below the help of `vault loop`.
pub const LOOP: &str = "\
Lines are dir, file, start, old start, finish and report, as for vault play. Each client has a connection on 127.0.0.1; a frame of
more than 65,536 bytes ends it. What is printed is what vault play prints.

Example:
  printf 'file a 00\\nstart backup laptop 5\\nfinish 0\\nreport\\n' | vault loop

Exit status:
  0  every line was run
  1  it ended with a fault, whose text is on standard error; what earlier lines print stands
  2  the words make no command";
