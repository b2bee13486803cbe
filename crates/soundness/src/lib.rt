//! That every state to which the definitions of the kernel come keeps what the code's numbers need. There is no code here, only
//! what each deed of the definitions keeps (`proofs/`): `kernel` and `laws` cite it. What crates below the kernel cite too
//! is in `model`.
#![tactic(auto)]
