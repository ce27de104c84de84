// The theorem that ties the listing and the assembler: every listing assembles to its ROM. It stands above both, so that a change of
// their code proves nothing here again. It holds no code. It may not know how anything is written, only the definitions of `mnemonics`,
// `listing` and `assembly`.
#![tactic(auto)]
