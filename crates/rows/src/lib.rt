// Lists of ids in fixed room: one row of sixteen places, and eight of them with their lengths beside them. Places past a list's end
// are 0, before and after. Wait lists and ready lists are both kept by these. The two numbers are written out: no others are used, and with
// const parameters in their place every call would owe besides that the sizes of its arrays fit.
#![tactic(auto)]

pub mod eight;
pub mod row;
