//! The laws that the bodies here rest on, so that a call of one is seen to be no deed.

pub(crate) use staging_files::images_have_the_old_or_the_new_content;
