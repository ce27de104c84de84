// Lists of stores and recalls on one store, over any machine: what each recall hands back and what the store holds. It holds no code. It
// may not know how anything is written, only the definitions of `runs` and `store` and the laws about them.
#![tactic(auto)]
