// No switch-off and no reset loses or invents a wait: what is promised of the machine's lists and log records, what the board's calls
// stand for, and what is claimed of every log, joined for lists of runs, saves and restores and for lists of the board's call. It holds no
// code. It may not know how anything is written, nor how a theorem is proved: only definitions and theorems.
#![tactic(auto)]
