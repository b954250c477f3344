//! What is done with the characters of domain names (UTS 46). Begin with `Uts46Mapper::try_new`.

mod borrowed;
mod iter;
mod mapped_characters;
mod mapped_list;
mod mapper;
mod table;

pub use borrowed::Uts46MapperBorrowed;
pub use iter::Uts46Iter;
pub use mapper::Uts46Mapper;
