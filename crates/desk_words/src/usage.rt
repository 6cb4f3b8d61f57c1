// What the program is told, and which version it is.
use crate::lines::{Line, Written};

pub fn whole(line: Line<'_>) -> Written {
    line.say(
        b"desk: rule sets in files of the byte form (ten bytes an entry), one job a call\n\
          \x20 desk false N OUT             the set that is always off, over N options (0 to 256)\n\
          \x20 desk true N OUT              the set that is always on\n\
          \x20 desk literal N V on|off OUT  on exactly where option V is on, or where it is off\n\
          \x20 desk hash-ready FILE         may it be hashed: whole, in signing order, nothing behind it\n\
          \x20 desk check FILE              ordered, tidy, in signing order, or not\n\
          \x20 desk show FILE               its entries, one a line\n\
          \x20 desk value FILE [V]..        on or off with these options on and all others off\n\
          \x20 desk same LEFT RIGHT         same numbers, or same meaning, or where they differ\n\
          \x20 desk not IN OUT              negation; the layout is kept\n\
          \x20 desk sign IN OUT             the same rule in signing order\n\
          \x20 desk exists IN OUT V         on where IN is on with option V off or with it on\n\
          \x20 desk forall IN OUT V         on where IN is on with both\n\
          \x20 desk select IN OUT V on|off  IN where option V is so, off elsewhere\n\
          \x20 desk restrict IN OUT [V on|off]..         IN with these options put so; it may need sign\n\
          \x20 desk pick IN OUT [V]..                    of these options the first allowed setting alone\n\
          \x20 desk OPERATOR LEFT RIGHT OUT [CHOICES]    and, or, xor, iff, imp, and_not\n\
          \x20 desk op P LEFT RIGHT OUT [CHOICES]        P: 0 to 15, or nine digits, or an OPERATOR\n\
          \x20 desk dry P LEFT RIGHT [CHOICES]           can it hold, and how many pairs it takes\n\
          \x20 desk help, --help, -h; desk --version\n\
          -q before the job's word: no answer is printed, the exit status tells it.\n\
          CHOICES: left V, right V, out V flip option V there; limit K refuses a longer array\n\
          (in a dry run: more pairs). There is room for 4,096 entries, 262,144 pairs and files\n\
          of 65,536 bytes; to pick K options, for 262,144 / (K + 4) entries if that is less.\n\
          OUT is a regular file or new; it is written whole or not at all, and may be one of the\n\
          inputs. - is standard input; as OUT it is standard output, and the answer goes to\n\
          standard error, where refusals and faults always go.\n\
          Exit status: 0 done or yes; 1 no: not hash-ready, not in signing order, off, the sets\n\
          differ, it cannot hold; 2 refused; 3 the words or a file are wrong, or how it ended is\n\
          not known; 4 the program could not be built.\n",
    )
}

pub fn version(line: Line<'_>) -> Written {
    line.say(b"desk 0.6.3\n")
}
